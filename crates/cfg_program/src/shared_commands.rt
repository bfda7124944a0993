//! What the program's arguments ask for, of callers on threads of their own.
ghost use Rattle.std.specs.Prelude.{◌≡◌, map, string_bytes};
ghost use Rattle.cfg_program.specs.SharedCommands.{shared_command_named};

/// What the program's arguments ask for, where it is done on several threads.
#[derive(Clone, Copy, Debug, PartialEq, Eq)]
pub enum SharedCommand {
    /// The calls of a script's callers, on what they share.
    Share,
    /// A section of each of a script's callers, at one gate.
    Gated,
}

/// What the arguments ask for, if it is one thing that is known and done on several threads.
pub fn shared_command_of(arguments: &[String]) -> Option<SharedCommand>
    ensures { result ≡ shared_command_named (map (λ a. string_bytes a) arguments.now) }
{
    match arguments {
        [name] if name.as_str() == "share" => Some(SharedCommand::Share),
        [name] if name.as_str() == "gated" => Some(SharedCommand::Gated),
        _ => None,
    }
}

//! What the program's arguments ask for.
ghost use Rattle.std.specs.Prelude.{◌≡◌, ◌≤◌, ℕ, map, string_bytes, ◌∷◌, [], Some, IfSome};
ghost use Rattle.cfg_program.specs.Commands.{command_named, count_of, most_profiles};

use crate::causes::Below;

/// What the program's arguments ask for.
#[derive(Clone, Copy, Debug, PartialEq, Eq)]
pub enum Command {
    /// The text [`HELP`].
    Help,
    /// The text [`VERSION`].
    Version,
    /// The calls that a script describes, with this below the line of each.
    Resolve(Below),
    /// The calls that a script describes, under one name of a cache.
    Cached,
    /// The region that a script's default region chain gives.
    Region,
    /// The bearer token that a script's default token chain gives, with this below the line of an error.
    Token(Below),
    /// The call that a script describes, with the member of the chain that asked each question.
    Explain,
    /// Whether a script's journal can be that of a call.
    Audit,
    /// The calls over a local endpoint that an object describes.
    Endpoint,
    /// One call over the variables and the world that are handed in.
    Local,
    /// One call over a set of so many profiles, at most [`MOST_PROFILES`].
    Generate(u64),
}

/// The largest number of profiles that `generate` takes.
pub const MOST_PROFILES: u64 = 1_000;

/// What `--version` tells.
pub const VERSION: &str = "bujerova 0.1.0\n";

/// What `--help` tells.
pub const HELP: &str = "\
bujerova: AWS credentials by a script, as the SDK's default chain finds them

usage: bujerova resolve < SCRIPT     a line for each call that the script describes
       bujerova why < SCRIPT         the same, and below each line why
       bujerova cached < SCRIPT      a line for each call under one name of a cache
       bujerova region < SCRIPT      a line for the region of the script's default region chain
       bujerova token < SCRIPT       a line for the token of the script's default token chain
       bujerova why-token < SCRIPT   the same, and below an error why
       bujerova explain < SCRIPT     a line for each question of the script's call: who asked it
       bujerova audit < SCRIPT       whether the script's journal can be that of a call
       bujerova share < SCRIPT       a line for each of the script's callers, on a thread each
       bujerova gated < SCRIPT       the same, of callers that take one token in turn
       bujerova endpoint < ENDPOINT  a line for each call over a local endpoint for tests
       bujerova drive                one call, its questions and their answers as lines
       bujerova local                one line for a call over the variables and files here
       bujerova generate N           one line for a call over N profiles, 1 to 1000
       bujerova --help | --version

SCRIPT and ENDPOINT are one JSON object on standard input. docs/SCRIPT.md tells
their members, and the statuses that the program ends with.
";

/// What is told of an unknown command, on standard error.
pub const USAGE: &str = "\
usage: bujerova resolve < SCRIPT
       bujerova why < SCRIPT
       bujerova cached < SCRIPT
       bujerova region < SCRIPT
       bujerova token < SCRIPT
       bujerova why-token < SCRIPT
       bujerova explain < SCRIPT
       bujerova audit < SCRIPT
       bujerova share < SCRIPT
       bujerova gated < SCRIPT
       bujerova endpoint < ENDPOINT
       bujerova drive
       bujerova local
       bujerova generate N
       bujerova --help | --version";

/// What the arguments ask for, if it is one thing that is known. The number of `generate` is 1 to [`MOST_PROFILES`], in
/// decimal digits without sign or leading zero.
pub fn command_of(arguments: &[String]) -> Option<Command>
    ensures command { result ≡ command_named (map (λ a. string_bytes a) arguments.now) }
    ensures most { (n : ℕ) → result ≡ Some (Command.Generate n) → n ≤ most_profiles }
{
    match arguments {
        [name] => named(name.as_str()),
        [name, number] => numbered(name.as_str(), number.as_str()),
        _ => None,
    }
}

fn named(name: &str) -> Option<Command>
    ensures command { result ≡ command_named (name.now ∷ []) }
    ensures most { (n : ℕ) → result ≡ Some (Command.Generate n) → n ≤ most_profiles }
{
    if name == "resolve" {
        Some(Command::Resolve(Below::Nothing))
    } else if name == "why" {
        Some(Command::Resolve(Below::Causes))
    } else if name == "cached" {
        Some(Command::Cached)
    } else if name == "region" {
        Some(Command::Region)
    } else if name == "token" {
        Some(Command::Token(Below::Nothing))
    } else if name == "why-token" {
        Some(Command::Token(Below::Causes))
    } else if name == "explain" {
        Some(Command::Explain)
    } else if name == "audit" {
        Some(Command::Audit)
    } else if name == "endpoint" {
        Some(Command::Endpoint)
    } else if name == "local" {
        Some(Command::Local)
    } else if name == "--help" {
        Some(Command::Help)
    } else if name == "--version" {
        Some(Command::Version)
    } else {
        None
    }
}

fn numbered(name: &str, number: &str) -> Option<Command>
    ensures command { result ≡ command_named (name.now ∷ number.now ∷ []) }
    ensures most { (n : ℕ) → result ≡ Some (Command.Generate n) → n ≤ most_profiles }
{
    if name != "generate" {
        return None;
    }
    match count_in(number) {
        Some(count) => Some(Command::Generate(count)),
        None => None,
    }
}

// The number of a text, in decimal digits, without sign or leading zero, from 1 to the largest that is taken.
fn count_in(text: &str) -> Option<u64>
    ensures value { result ≡ count_of text.now }
    ensures most { IfSome result (λ n. n ≤ most_profiles) }
{
    // `parse` takes a plus sign and leading zeros. Here one number has one text.
    let first = text.as_bytes().first()?;
    if *first == b'0' || *first == b'+' {
        return None;
    }
    match text.parse::<u64>() {
        Ok(number) if number <= MOST_PROFILES => Some(number),
        _ => None,
    }
}

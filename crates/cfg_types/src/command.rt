//! Commands whose arguments may be secrets, and what a command leaves behind.
ghost use Rattle.std.specs.Prelude.{◌≡◌, ◌++◌, IfOk, true, false, MatchOption, codes};
ghost use Rattle.std.specs.Char.{is_ascii};
ghost use Rattle.std.specs.Str.{encode_utf8_all};
ghost use Rattle.std.specs.Fmt.{debug_str, debug_escape, WritesOnOk, DisplaysOnOk};
ghost use Rattle.cfg_base.specs.Text.{characters};
ghost use Rattle.cfg_types.specs.Commands.{has_white_space, StandsBefore, code_text, note};

use cfg_base::{Bytes, OutOfMemory, Text, TryCopy};
use std::alloc::Global;
use std::fmt;
use std::marker::Model;

/// A command whose arguments may be secrets: what is shown of it is its text up to the first white
/// space, and whether more follows. Contracts see the whole text.
#[derive(PartialEq, Eq, Drop)]
pub struct CommandWithSensitiveArgs {
    command: Text,
}

impl Model for CommandWithSensitiveArgs {
    ghost use Rattle.std.specs.Prelude.{List, ℕ};

    ghost Value = { List ℕ };

    ghost view = { λ c. c.command };

    ghost inverse = { λ command. record { command = command } };
}

impl CommandWithSensitiveArgs {
    /// The command of this text.
    pub fn new(command: Text) -> CommandWithSensitiveArgs
        ensures { result ≡ command }
    {
        CommandWithSensitiveArgs { command }
    }

    /// A copy of the command. `OutOfMemory` where memory runs out.
    pub fn to_owned_string(&self, alloc: Global) -> Result<CommandWithSensitiveArgs, OutOfMemory>
        ensures { IfOk result (λ c. c ≡ self.now) }
    {
        self.copy(alloc)
    }

    /// The whole text, arguments and all.
    pub fn unredacted(&self) -> &str
        ensures chars { characters result.now ≡ self.now }
        ensures bytes { result.now ≡ encode_utf8_all self.now }
    {
        self.command.as_str()
    }
}

impl fmt::Display for CommandWithSensitiveArgs {
    ghost use Rattle.std.specs.Prelude.{Some};
    ghost use Rattle.cfg_types.specs.Commands.{shown_command};

    ghost output = { λ c. Some (encode_utf8_all (shown_command c)) };

    ghost styled_output = { λ c _. Some (encode_utf8_all (shown_command c)) };

    fn fmt<W: fmt::Write>(&self, f: &mut fmt::Formatter<W>) -> fmt::Result {
        let text = self.unredacted();
        match before_white_space(text) {
            None => f.write_str(text),
            Some(program) => {
                f.write_str(program)?;
                f.write_str(" ** arguments redacted **")
            }
        }
    }
}

impl fmt::Debug for CommandWithSensitiveArgs {
    ghost use Rattle.std.specs.Str.{encode_utf8_all};
    ghost use Rattle.std.specs.Fmt.{debug_str};
    ghost use Rattle.cfg_types.specs.Commands.{shown_command};

    ghost debug_output = { λ c. debug_str (encode_utf8_all (shown_command c)) };

    fn fmt<W: fmt::Write>(&self, f: &mut fmt::Formatter<W>) -> fmt::Result {
        ShownCommand(&self.command).fmt(f)
    }
}

/// How a Debug text shows a command: as the Debug text of what is shown of it.
#[derive(Drop)]
pub struct ShownCommand<'a>(pub &'a Text);

impl fmt::Debug for ShownCommand<'_> {
    ghost use Rattle.std.specs.Str.{encode_utf8_all};
    ghost use Rattle.std.specs.Fmt.{debug_str};
    ghost use Rattle.cfg_types.specs.Commands.{shown_command};

    ghost debug_output = { λ c. debug_str (encode_utf8_all (shown_command c.0.now)) };

    fn fmt<W: fmt::Write>(&self, f: &mut fmt::Formatter<W>) -> fmt::Result {
        let text = self.0.as_str();
        match before_white_space(text) {
            None => fmt::Debug::fmt(&text, f),
            Some(program) => write_redacted(program, f),
        }
    }
}

// What a Debug text of `{program} ** arguments redacted **` is, without the memory for that text.
fn write_redacted<W: fmt::Write>(program: &str, f: &mut fmt::Formatter<W>) -> fmt::Result
    ensures { DisplaysOnOk W.write_str_gives f.old result (debug_str (program.now ++ note)) f.new }
{
    f.write_str("\"")?;
    for c in program.chars() {
        write_escaped(c, f)?;
    }
    f.write_str(" ** arguments redacted **\"")
}

// What stands for a character between the quotation marks of a Debug text. No contract of std says which
// characters other than ASCII are shown by their codes.
fn write_escaped<W: fmt::Write>(c: char, f: &mut fmt::Formatter<W>) -> fmt::Result
    ensures { is_ascii c ≡ true → WritesOnOk W.write_str_gives f.old result (debug_escape 34 c) f.new }
{
    match c {
        '\0' => f.write_str("\\0"),
        '\t' => f.write_str("\\t"),
        '\n' => f.write_str("\\n"),
        '\r' => f.write_str("\\r"),
        '"' => f.write_str("\\\""),
        '\\' => f.write_str("\\\\"),
        '\u{7f}' => f.write_str("\\u{7f}"),
        '\u{1}'..='\u{1f}' => write_code(u32::from(c), f),
        ' '..='~' => f.write_char(c),
        _ => write!(f, "{}", c.escape_debug()),
    }
}

// Writes a character by its code.
fn write_code<W: fmt::Write>(code: u32, f: &mut fmt::Formatter<W>) -> fmt::Result
    ensures { WritesOnOk W.write_str_gives f.old result (code_text code) f.new }
{
    write!(f, "\\u{{{code:x}}}")
}

// The text before the first white space, where there is any.
fn before_white_space(text: &str) -> Option<&str>
    ensures { MatchOption result (has_white_space (characters text.now) ≡ false) (λ before. StandsBefore before.now (characters text.now)) }
{
    let (before, _) = text.split_once(char::is_whitespace)?;
    Some(before)
}

impl TryCopy for CommandWithSensitiveArgs {
    fn copy(&self, alloc: Global) -> Result<CommandWithSensitiveArgs, OutOfMemory> {
        let command = self.command.copy(alloc)?;
        Ok(CommandWithSensitiveArgs { command })
    }
}

/// What a command left behind when it ended.
#[derive(PartialEq, Eq)]
pub struct Finished {
    /// The exit status.
    pub status: i32,
    /// What it wrote to standard output.
    pub output: Bytes,
    /// What it wrote to standard error.
    pub errors: Bytes,
}

impl Drop for Finished {
    fn drop(self) {
        let Finished {
            status: _,
            output: _,
            errors: _,
        } = self;
    }
}

impl TryCopy for Finished {
    fn copy(&self, alloc: Global) -> Result<Finished, OutOfMemory> {
        let output = self.output.copy(alloc)?;
        let errors = self.errors.copy(alloc)?;
        Ok(Finished {
            status: self.status,
            output,
            errors,
        })
    }
}

// The output of a command may hold keys: the text shows neither stream.
impl fmt::Debug for Finished {
    ghost use Rattle.std.specs.Prelude.{Some};
    ghost use Rattle.cfg_types.specs.DebugTexts.{shown_finished};

    ghost debug_output = { λ d. Some (shown_finished d.status) };

    fn fmt<W: fmt::Write>(&self, f: &mut fmt::Formatter<W>) -> fmt::Result {
        let status = self.status;
        write!(
            f,
            "Finished {{ status: {status}, secrets: \"** redacted **\" }}"
        )
    }
}

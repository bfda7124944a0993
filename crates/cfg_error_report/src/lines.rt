//! The lines of what an error tells.
ghost use Rattle.std.specs.Prelude.{◌≡◌, ◌∷◌, ◌++◌, [], IfSome, OnOk, string_bytes};
ghost use Rattle.std.specs.List.{flat_map};
ghost use Rattle.std.specs.Fmt.{WritesOnOk};
ghost use Rattle.cfg_error_report.specs.Lines.{Line, cause_line, detail_line, detailed, member_line, joint as joint_of, closing as closing_of, joined};

use crate::kind::LineKind;
use cfg_types::OutOfMemory;
use std::alloc::Global;
use std::fmt;
use std::marker::Model;
use std::string::ToString;

/// One line of what an error tells: the text of an error or of a cause, a detail of it, or the name of a chain's
/// member.
#[derive(Drop)]
pub struct CauseLine {
    kind: LineKind,
    depth: usize,
    text: String,
}

impl Model for CauseLine {
    ghost use Rattle.std.specs.Prelude.{string_bytes};
    ghost use Rattle.cfg_error_report.specs.Lines.{Line};

    ghost Value = { Line };

    ghost view = { λ l. record { kind = l.kind; depth = l.depth; text = string_bytes l.text } };
}

impl CauseLine {
    /// What it is.
    pub fn kind(&self) -> LineKind
        ensures { result ≡ self.now.kind }
    {
        self.kind
    }

    /// How deep it stands: 0 for the error itself and what it comes of, and for the members of a chain one more
    /// than for the chain. A detail stands as deep as the text that it belongs to.
    pub fn depth(&self) -> usize
        ensures { result ≡ self.now.depth }
    {
        self.depth
    }

    /// The text, or the name.
    pub fn text(&self) -> &str
        ensures { result.now ≡ self.now.text }
    {
        self.text.as_str()
    }
}

/// An error and what it comes of, from the outside in. Contracts see the list of its lines. It is shown in one
/// line: a cause behind `: `, a chain's member behind `; `, and a detail in parentheses.
#[derive(Drop)]
pub struct Causes {
    alloc: Global,
    lines: Vec<CauseLine>,
}

impl Model for Causes {
    ghost use Rattle.std.specs.Prelude.{List};
    ghost use Rattle.cfg_error_report.specs.Lines.{Line};

    ghost Value = { List Line };

    ghost view = { λ c. c.lines.items };
}

impl Causes {
    /// Nothing is told yet.
    pub(crate) fn new(alloc: Global) -> Causes
        ensures { result ≡ [] }
    {
        Causes {
            alloc,
            lines: Vec::new(alloc),
        }
    }

    /// The lines, in order. The first one is the error itself.
    pub fn lines(&self) -> &[CauseLine]
        ensures { result.now ≡ self.now }
    {
        self.lines.as_slice()
    }

    pub(crate) fn alloc(&self) -> Global {
        self.alloc
    }

    /// The line of an error or a cause of this text.
    pub(crate) fn tell_text(&mut self, depth: usize, text: String) -> Result<(), OutOfMemory>
        ensures { OnOk result (self.new ≡ self.old ++ cause_line depth (string_bytes text) ∷ []) }
    {
        self.lines.push(CauseLine {
            kind: LineKind::Cause,
            depth,
            text,
        })?;
        Ok(())
    }

    /// The line of a cause of these words.
    pub(crate) fn tell_words(&mut self, depth: usize, words: &str) -> Result<(), OutOfMemory>
        ensures { OnOk result (self.new ≡ self.old ++ cause_line depth words.now ∷ []) }
    {
        let text = String::from_str(self.alloc, words)?;
        self.tell_text(depth, text)
    }

    /// The line of a detail in these words.
    pub(crate) fn tell_detail(&mut self, depth: usize, words: &str) -> Result<(), OutOfMemory>
        ensures { OnOk result (self.new ≡ self.old ++ detail_line depth words.now ∷ []) }
    {
        let text = String::from_str(self.alloc, words)?;
        self.lines.push(CauseLine {
            kind: LineKind::Detail,
            depth,
            text,
        })?;
        Ok(())
    }

    /// The line of an error or a cause of this text, and a detail of it in these words.
    pub(crate) fn tell_text_detailed(
        &mut self,
        depth: usize,
        text: String,
        detail: &str,
    ) -> Result<(), OutOfMemory>
        ensures { OnOk result (self.new ≡ self.old ++ detailed (string_bytes text) detail.now depth) }
    {
        self.tell_text(depth, text)?;
        self.tell_detail(depth, detail)
    }

    /// The line of an error or a cause as it is shown, and a detail of it in these words.
    pub(crate) fn tell_detailed<T: fmt::Display>(
        &mut self,
        depth: usize,
        shown: &T,
        detail: &str,
    ) -> Result<(), OutOfMemory>
        ensures { OnOk result (IfSome (T.output shown.now) (λ t. self.new ≡ self.old ++ detailed t detail.now depth)) }
    {
        let text = shown.to_string(self.alloc)?;
        self.tell_text_detailed(depth, text, detail)
    }

    /// The line of an error or a cause as it is shown.
    pub(crate) fn tell<T: fmt::Display>(
        &mut self,
        depth: usize,
        shown: &T,
    ) -> Result<(), OutOfMemory>
        ensures { OnOk result (IfSome (T.output shown.now) (λ t. self.new ≡ self.old ++ cause_line depth t ∷ [])) }
    {
        let text = shown.to_string(self.alloc)?;
        self.tell_text(depth, text)
    }

    /// The line of a chain's member of this name.
    pub(crate) fn tell_member(&mut self, depth: usize, name: &str) -> Result<(), OutOfMemory>
        ensures { OnOk result (self.new ≡ self.old ++ member_line depth name.now ∷ []) }
    {
        let text = String::from_str(self.alloc, name)?;
        self.lines.push(CauseLine {
            kind: LineKind::Member,
            depth,
            text,
        })?;
        Ok(())
    }
}

impl fmt::Display for Causes {
    ghost use Rattle.std.specs.Prelude.{Some};
    ghost use Rattle.cfg_error_report.specs.Lines.{one_line};

    ghost output = { λ c. Some (one_line c) };

    fn fmt<W: fmt::Write>(&self, f: &mut fmt::Formatter<W>) -> fmt::Result {
        match self.lines.as_slice().split_first() {
            None => Ok(()),
            Some((first, later)) => {
                f.write_str(first.text())?;
                write_later(f, later)
            }
        }
    }
}

// Writes the lines behind the first one.
fn write_later<W: fmt::Write>(f: &mut fmt::Formatter<W>, lines: &[CauseLine]) -> fmt::Result
    ensures { WritesOnOk W.write_str_gives f.old result (flat_map joined lines.now) f.new }
{
    for line in lines {
        write_joined(f, line)?;
    }
    Ok(())
}

fn write_joined<W: fmt::Write>(f: &mut fmt::Formatter<W>, line: &CauseLine) -> fmt::Result
    ensures { WritesOnOk W.write_str_gives f.old result (joined line.now) f.new }
{
    f.write_str(joint(line.kind()))?;
    f.write_str(line.text())?;
    f.write_str(closing(line.kind()))
}

fn joint(kind: LineKind) -> &'static str
    ensures { result.now ≡ joint_of kind }
{
    match kind {
        LineKind::Cause => ": ",
        LineKind::Member => "; ",
        LineKind::Detail => " (",
    }
}

fn closing(kind: LineKind) -> &'static str
    ensures { result.now ≡ closing_of kind }
{
    match kind {
        LineKind::Detail => ")",
        _ => "",
    }
}

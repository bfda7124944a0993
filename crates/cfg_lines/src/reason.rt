//! Why a line answers nothing.
ghost use Rattle.std.specs.Prelude.{IfOk};
ghost use Rattle.cfg_lines.specs.Reasons.{IsReason};

use crate::items::answers;
use cfg_script::{ScriptFault, find_fault, read_script};
use cfg_types::OutOfMemory;
use cfg_world::Question;
use std::alloc::Global;
use std::fmt;

/// Why a line answers nothing.
#[derive(Drop)]
pub enum NoAnswer {
    /// It is no script, for this fault.
    NoScript(ScriptFault),
    /// It does not have one item of what was asked, or says something else.
    OtherItems,
}

impl fmt::Display for NoAnswer {
    ghost use Rattle.cfg_lines.specs.Reasons.{no_answer_text};

    ghost output = { no_answer_text };

    fn fmt<W: fmt::Write>(&self, f: &mut fmt::Formatter<W>) -> fmt::Result {
        match self {
            NoAnswer::NoScript(fault) => fault.fmt(f),
            NoAnswer::OtherItems => {
                f.write_str("an answer has one item of what was asked, and nothing else")
            }
        }
    }
}

/// Why a line answers nothing to a question, or none where it is an answer. That the line is no script comes first,
/// and its fault tells the place.
///
/// # Errors
///
/// `OutOfMemory` where memory runs out, in place of any answer.
pub fn find_no_answer(
    alloc: Global,
    question: &Question,
    line: &[u8],
) -> Result<Option<NoAnswer>, OutOfMemory>
    ensures { IfOk result (λ o. IsReason question.now line.now o) }
{
    if let Some(fault) = find_fault(alloc, line)? {
        return Ok(Some(NoAnswer::NoScript(fault)));
    }
    let Ok(script) = read_script(alloc, line) else {
        return Err(OutOfMemory);
    };
    if answers(question, &script) {
        Ok(None)
    } else {
        Ok(Some(NoAnswer::OtherItems))
    }
}

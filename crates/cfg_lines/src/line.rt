//! The line of a question.
ghost use Rattle.std.specs.Prelude.{IfOk};
ghost use Rattle.cfg_lines.specs.Lines.{IsQuestionLine};

use crate::questions::question_as_value;
use cfg_types::OutOfMemory;
use cfg_world::Question;
use std::alloc::Global;

/// The line of a question, with its end: one JSON object, whose member `ask` names the kind of the question. Of the
/// credentials that sign a call it tells the keys alone. `OutOfMemory` where memory runs out.
pub fn question_line(alloc: Global, question: &Question) -> Result<Vec<u8>, OutOfMemory>
    ensures { IfOk result (λ line. IsQuestionLine question.now line.items) }
{
    let value = question_as_value(alloc, question)?;
    let mut line = value.to_vec(alloc)?;
    line.push(b'\n')?;
    Ok(line)
}

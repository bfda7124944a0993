//! What a line answers to a question.
ghost use Rattle.std.specs.Prelude.{◌≡◌, ◌∷◌, [], Err, IfOk};
ghost use Rattle.cfg_world.specs.Script.{AllFit, Given, start};
ghost use Rattle.cfg_lines.specs.declared.answers.AnswerError.TheVariants as error;
ghost use Rattle.cfg_lines.specs.Lines.{IsAnswer, IsNoAnswer};

use crate::items::answers;
use cfg_script::{Script, ScriptError, read_script};
use cfg_types::OutOfMemory;
use cfg_world::{DeviceLists, Question, Receipt, ScriptDevices, World};
use std::alloc::Global;

/// Why a line gave no receipt.
#[derive(Clone, Copy, Debug, PartialEq, Eq)]
pub enum AnswerError {
    /// The line is no script, or one that does not answer the question or says something else.
    /// [`find_no_answer`](crate::find_no_answer) tells why.
    NoAnswer,
    /// Memory ran out.
    OutOfMemory,
}

impl From<OutOfMemory> for AnswerError {
    ghost from_gives = { λ _ e. e ≡ error.OutOfMemory };

    fn from(_: OutOfMemory) -> AnswerError {
        AnswerError::OutOfMemory
    }
}

// What devices over these lists answer to the question.
fn ask(alloc: Global, question: Question, lists: DeviceLists) -> Result<Receipt, OutOfMemory>
    requires { AllFit lists }
    ensures asked { IfOk result (λ r. r.0 ≡ question) }
    ensures given { IfOk result (λ r. Given lists start (r ∷ [])) }
{
    let devices = ScriptDevices::new(alloc, lists)?;
    let mut world = World::new(alloc, devices);
    world.ask(question)
}

/// What a line answers to a question: the receipt of the question with the answer that the line gives. The line is a
/// script that has one item of what is asked, of the asked path, and nothing else; for a write that is granted, none
/// at all. The answer is the one that scripted devices give over it.
///
/// # Errors
///
/// - `NoAnswer`: the line is no such script.
/// - `OutOfMemory` where memory runs out, in place of any answer.
pub fn answer_in(alloc: Global, question: Question, line: &[u8]) -> Result<Receipt, AnswerError>
    ensures asked { IfOk result (λ r. r.0 ≡ question) }
    ensures answer { IfOk result (λ r. IsAnswer question line.now r.1) }
    ensures no_answer { result ≡ Err AnswerError.NoAnswer → IsNoAnswer question line.now }
{
    let script = match read_script(alloc, line) {
        Ok(script) => script,
        Err(ScriptError::NoScript) => return Err(AnswerError::NoAnswer),
        Err(ScriptError::OutOfMemory) => return Err(AnswerError::OutOfMemory),
    };
    if !answers(&question, &script) {
        return Err(AnswerError::NoAnswer);
    }
    let Script { devices, .. } = script;
    Ok(ask(alloc, question, devices)?)
}

//! What no clause says: worked examples of receipts that are handed out again, and that an entry is made.
use crate::world::devices::{answer_words, scripted};
use crate::world::questions::question;
use cfg_types::{OutOfMemory, Seq};
use cfg_world::{Answer, Answers, Asking, Entry, Question, Receipt, ScriptDevices, World};
use std::alloc::Global;
use std::test::Fail;

// The receipts of two questions.
fn receipts(alloc: Global, world: &mut World<ScriptDevices>) -> Result<Seq<Receipt>, OutOfMemory> {
    let first = world.ask(question(alloc, "read a")?)?;
    let second = world.ask(question(alloc, "jitter")?)?;
    Ok(Seq::of(vec![in alloc; first, second]?))
}

// What a question gets, or why it gets nothing.
fn put_words(alloc: Global, words: &str, answers: &mut Answers) -> Result<String, OutOfMemory> {
    let question = question(alloc, words)?;
    match answers.put(question) {
        Ok(receipt) => Ok(answer_words(alloc, receipt.entry().answer())?),
        Err(stop) => Ok(format!(in alloc; "{stop:?}")?),
    }
}

#[test]
fn a_receipt_answers_its_own_question_alone(rt: HostRuntime) -> Result<(), Fail> {
    let table: &[(&str, &str)] = &[
        ("jitter", "Open"),
        ("read b", "Open"),
        ("read a", "3"),
        ("jitter", "8"),
        ("run x", "Open"),
    ];
    let mut world = World::new(rt.alloc(), scripted(rt.alloc())?);
    let mut answers = Answers::new(receipts(rt.alloc(), &mut world)?);
    for (asked, want) in table {
        let got = put_words(rt.alloc(), asked, &mut answers)?;
        assert_eq!(rt; got.as_str(), *want, "{asked}");
    }
    Ok(())
}

#[test]
fn an_entry_is_made(rt: HostRuntime) -> Result<(), Fail> {
    let made = Entry::new(rt.alloc(), Question::Jitter, Answer::Jitter(7))?;
    assert!(rt; made.is_some());
    Ok(())
}

//! Questions by words, and how they are shown.
use cfg_types::{Bytes, Http, OutOfMemory, Request, Text, Timeouts, TryCopy};
use cfg_world::Question;
use std::alloc::Global;
use std::test::Fail;

pub(crate) const TIMEOUTS: Timeouts = Timeouts {
    connect_ms: None,
    read_ms: None,
    operation_ms: None,
    attempt_ms: None,
};

fn question_of(
    alloc: Global,
    kind: &str,
    text: Text,
    path: Text,
    bytes: Bytes,
) -> Result<Question, OutOfMemory> {
    Ok(match kind {
        "now" => Question::Now,
        "jitter" => Question::Jitter,
        "read" => Question::Read { path: text },
        "write" => Question::Write { path: text, bytes },
        "run" => Question::Run { command: text },
        "look-up" => Question::LookUp { host: text },
        _ => {
            let call = Http {
                endpoint: text,
                path,
                authorization: Some(bytes),
                timeouts: TIMEOUTS,
            };
            Question::send(alloc, Request::Http(call))?
        }
    })
}

/// The question of some words: its kind, and what it asks for. What is written and what authorizes is `wJalr`.
pub(crate) fn question(alloc: Global, words: &str) -> Result<Question, OutOfMemory> {
    let (kind, rest) = words.split_once(' ').unwrap_or((words, ""));
    let text = Text::of(alloc, rest)?;
    let path = Text::of(alloc, "/p")?;
    let bytes = Bytes::of(alloc, b"wJalr")?;
    question_of(alloc, kind, text, path, bytes)
}

fn shown_words(alloc: Global, words: &str) -> Result<String, OutOfMemory> {
    let copy = question(alloc, words)?.copy(alloc)?;
    Ok(format!(in alloc; "{copy:?} {copy:#?}")?)
}

const SHOWN: &[(&str, &str)] = &[
    ("now", "Now Now"),
    ("jitter", "Jitter Jitter"),
    ("read a", "Read { path: \"a\" }"),
    (
        "write a",
        "Write { path: \"a\", bytes: \"** redacted **\" }",
    ),
    (
        "write gr\u{f6}\u{df}e",
        "Write { path: \"gr\u{f6}\u{df}e\", bytes: \"** redacted **\" }",
    ),
    (
        "run x wJalr",
        "Run { command: \"x ** arguments redacted **\" }",
    ),
    (
        "run gr\u{f6}\u{df}e wJalr",
        "Run { command: \"gr\u{f6}\u{df}e ** arguments redacted **\" }",
    ),
    ("look-up h", "LookUp { host: \"h\" }"),
    (
        "send http://e",
        "Send(Http(Http { endpoint: \"http://e\", path: \"/p\", secrets: \"** redacted **\" }))",
    ),
];

#[test]
fn questions_are_shown_without_their_secrets(rt: HostRuntime) -> Result<(), Fail> {
    for (words, want) in SHOWN {
        let shown = shown_words(rt.alloc(), words)?;
        let text = shown.as_str();
        assert!(rt; text.starts_with(*want), "{text}");
        assert!(rt;
            !text.contains("wJalr") && !text.contains("119, 74"),
            "{text}"
        );
    }
    Ok(())
}

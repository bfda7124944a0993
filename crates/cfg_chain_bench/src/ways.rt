//! The ways to make a script's call.

/// How a script's call is made.
#[derive(Clone, Copy, Debug, PartialEq, Eq)]
pub enum Way {
    None,
    Call,
    Keep,
    KeepShared,
    Run,
    Leave,
    Behind(usize),
    Lent(u64),
    Shared { threads: u64, calls: u64 },
}

/// The way that the program's words name, if they name one.
pub fn way_of(words: &[String]) -> Option<Way> {
    match words {
        [word] => named(word.as_str()),
        [word, count] => counted(word.as_str(), number(count)?),
        [word, threads, calls] => shared(word.as_str(), number(threads)?, number(calls)?),
        _ => None,
    }
}

fn named(word: &str) -> Option<Way> {
    match word {
        "none" => Some(Way::None),
        "call" => Some(Way::Call),
        "keep" => Some(Way::Keep),
        "keep-shared" => Some(Way::KeepShared),
        "run" => Some(Way::Run),
        "leave" => Some(Way::Leave),
        _ => None,
    }
}

fn counted(word: &str, count: u64) -> Option<Way> {
    match word {
        "behind" => Some(Way::Behind(count as usize)),
        "lent" => Some(Way::Lent(count)),
        _ => None,
    }
}

fn shared(word: &str, threads: u64, calls: u64) -> Option<Way> {
    match word {
        "shared" => Some(Way::Shared { threads, calls }),
        _ => None,
    }
}

fn number(word: &String) -> Option<u64> {
    word.as_str().parse::<u64>().ok()
}

//! What no clause says: worked examples of the definitions, and that calls succeed.
use cfg_types::{CommandWithSensitiveArgs, Env, EnvText, Instant, OutOfMemory, Text};
use std::alloc::{AllocError, Global};
use std::test::Fail;

fn value(alloc: Global, text: Option<&str>) -> Result<EnvText, OutOfMemory> {
    match text {
        Some(text) => Ok(EnvText::Text(Text::of(alloc, text)?)),
        None => Ok(EnvText::NotUnicode),
    }
}

fn env(alloc: Global, rows: &[(&str, Option<&str>)]) -> Result<Env, OutOfMemory> {
    let mut variables = Vec::new(alloc);
    for (name, text) in rows {
        let value = value(alloc, *text)?;
        variables.push((String::from_str(alloc, name)?, value))?;
    }
    Env::new(alloc, variables)
}

const VARIABLES: &[(&str, Option<&str>)] = &[
    ("A", Some("1")),
    ("B", Some("2")),
    ("a", Some("4")),
    ("A", Some("")),
    ("B", None),
];

#[test]
fn the_later_of_two_variables_counts(rt: HostRuntime) -> Result<(), Fail> {
    let table: &[(&str, &str)] = &[
        ("A", r#"Ok("")"#),
        ("B", "Err(NotUnicode)"),
        ("a", r#"Ok("4")"#),
        ("b", "Err(NotPresent)"),
    ];
    let env = env(rt.alloc(), VARIABLES)?;
    for (name, want) in table {
        let value = env.get(name);
        let words = format!(in rt.alloc(); "{value:?}")?;
        assert_eq!(rt; words.as_str(), *want, "{name}");
    }
    Ok(())
}

// The moment later by so many seconds, and the one earlier by as many.
fn moment_words(alloc: Global, moment: Instant, by: u64) -> Result<String, AllocError> {
    let later = moment.plus(by);
    let earlier = moment.minus(by);
    format!(in alloc; "{later:?} {earlier:?}")
}

// The moment one second later, the one earlier, and whether there is one so many seconds later.
fn end_words(alloc: Global, moment: Option<Instant>, by: u64) -> Result<String, AllocError> {
    let Some(moment) = moment else {
        return String::from_str(alloc, "no moment");
    };
    let later = moment.plus(1);
    let earlier = moment.minus(1);
    let checked = moment.checked_plus(by).is_some();
    format!(in alloc; "{later:?} {earlier:?} {checked}")
}

// A command as it is shown.
fn command_words(alloc: Global, text: &str) -> Result<String, OutOfMemory> {
    let command = CommandWithSensitiveArgs::new(Text::of(alloc, text)?).to_owned_string(alloc)?;
    Ok(format!(in alloc; "{command}|{command:?}|{command:#?}")?)
}

const COMMANDS: &[(&str, &str)] = &[
    ("program", "program|\"program\"|\"program\""),
    (
        "program arg1 arg2",
        "program ** arguments redacted **|\"program ** arguments redacted **\"|\"program ** arguments redacted **\"",
    ),
    (
        "program\u{a0}",
        "program ** arguments redacted **|\"program ** arguments redacted **\"|\"program ** arguments redacted **\"",
    ),
    (
        "a\"b\\c'd e",
        "a\"b\\c'd ** arguments redacted **|\"a\\\"b\\\\c'd ** arguments redacted **\"|\"a\\\"b\\\\c'd ** arguments redacted **\"",
    ),
    (
        "gr\u{f6}\u{df}e\0\u{1}\u{7f}\u{301} wJalr",
        "gr\u{f6}\u{df}e\0\u{1}\u{7f}\u{301} ** arguments redacted **|\"gr\u{f6}\u{df}e\\0\\u{1}\\u{7f}\\u{301} ** arguments redacted **\"|\"gr\u{f6}\u{df}e\\0\\u{1}\\u{7f}\\u{301} ** arguments redacted **\"",
    ),
];

#[test]
fn commands_are_shown_without_their_arguments(rt: HostRuntime) -> Result<(), Fail> {
    for (text, want) in COMMANDS {
        let words = command_words(rt.alloc(), text)?;
        assert_eq!(rt; words.as_str(), *want);
    }
    Ok(())
}

#[test]
fn moments_stop_at_the_first_and_at_the_last(rt: HostRuntime) -> Result<(), Fail> {
    let moment = Instant::epoch().plus(5);
    let words = moment_words(rt.alloc(), moment, u64::MAX)?;
    assert_eq!(rt;
        words.as_str(),
        "Instant { seconds: 9223372036854775807, nanos: 999999999 } Instant { seconds: -9223372036854775808, nanos: 0 }"
    );
    Ok(())
}

#[test]
fn moments_at_the_ends(rt: HostRuntime) -> Result<(), Fail> {
    let table: &[(i64, u32, &str)] = &[
        (
            i64::MAX,
            5,
            "Instant { seconds: 9223372036854775807, nanos: 999999999 } Instant { seconds: 9223372036854775806, nanos: 5 } false",
        ),
        (
            i64::MIN,
            0,
            "Instant { seconds: -9223372036854775807, nanos: 0 } Instant { seconds: -9223372036854775808, nanos: 0 } true",
        ),
        (
            0,
            0,
            "Instant { seconds: 1, nanos: 0 } Instant { seconds: -1, nanos: 0 } true",
        ),
        (
            1,
            999_999_999,
            "Instant { seconds: 2, nanos: 999999999 } Instant { seconds: 0, nanos: 999999999 } false",
        ),
        (0, 1_000_000_000, "no moment"),
    ];
    for (seconds, nanos, want) in table {
        let moment = Instant::new(*seconds, *nanos);
        let words = end_words(rt.alloc(), moment, 9_223_372_036_854_775_807)?;
        assert_eq!(rt; words.as_str(), *want, "{seconds} {nanos}");
    }
    Ok(())
}

//! What no clause says: worked examples of dates, those of RFC 3339 and of the calendar's ends.
use cfg_json::{parse_date, parse_offset_date, write_date};
use cfg_types::{Instant, OutOfMemory};
use std::alloc::Global;
use std::test::Fail;

// The seconds, and the date that is written for them.
fn moment_words(alloc: Global, moment: Option<Instant>) -> Result<String, OutOfMemory> {
    let Some(moment) = moment else {
        return Ok(String::from_str(alloc, "-")?);
    };
    let seconds = moment.seconds();
    let date = write_date(alloc, moment)?;
    Ok(format!(in alloc; "{seconds} {date:?}")?)
}

const DATES: &[(&str, &str)] = &[
    (
        "1985-04-12T23:20:50.52Z",
        "482196050 Some(\"1985-04-12T23:20:50.52Z\")",
    ),
    (
        "1996-12-20T00:39:57Z",
        "851042397 Some(\"1996-12-20T00:39:57Z\")",
    ),
    (
        "2009-02-13t23:31:30.500z",
        "1234567890 Some(\"2009-02-13T23:31:30.5Z\")",
    ),
    (
        "2009-02-13T23:31:30.123456789Z",
        "1234567890 Some(\"2009-02-13T23:31:30.123456789Z\")",
    ),
    (
        "2016-02-29T00:00:00Z",
        "1456704000 Some(\"2016-02-29T00:00:00Z\")",
    ),
    (
        "2000-02-29T00:00:00Z",
        "951782400 Some(\"2000-02-29T00:00:00Z\")",
    ),
    (
        "0001-01-01T00:00:00Z",
        "-62135596800 Some(\"0001-01-01T00:00:00Z\")",
    ),
    (
        "9999-12-31T23:59:59.999999999Z",
        "253402300799 Some(\"9999-12-31T23:59:59.999999999Z\")",
    ),
    (
        "1969-12-31T23:59:59.5Z",
        "-1 Some(\"1969-12-31T23:59:59.5Z\")",
    ),
    ("", "-"),
    ("1996-12-19T16:39:57-08:00", "-"),
    ("1990-12-31T23:59:60Z", "-"),
    ("2009-02-13T23:31:30.1234567890Z", "-"),
    ("2009-02-13T23:31:30.Z", "-"),
    ("2009-02-13 23:31:30Z", "-"),
    ("2009-02-13T23:31:30", "-"),
    ("2009-2-13T23:31:30Z", "-"),
    ("2016-12-31T24:00:00Z", "-"),
    ("2016-12-31T23:60:00Z", "-"),
    ("2015-02-29T00:00:00Z", "-"),
    ("1900-02-29T00:00:00Z", "-"),
    ("2016-13-01T00:00:00Z", "-"),
    ("2016-01-00T00:00:00Z", "-"),
    ("2016-04-31T00:00:00Z", "-"),
    ("0000-12-31T23:59:59Z", "-"),
];

const OFFSETS: &[(&str, &str)] = &[
    (
        "1996-12-19T16:39:57-08:00",
        "851042397 Some(\"1996-12-20T00:39:57Z\")",
    ),
    (
        "1937-01-01T12:00:27.87+00:20",
        "-1041337173 Some(\"1937-01-01T11:40:27.87Z\")",
    ),
    (
        "2022-05-02T18:36:00Z",
        "1651516560 Some(\"2022-05-02T18:36:00Z\")",
    ),
    ("0001-01-01T00:00:00+00:01", "-62135596860 None"),
    ("9999-12-31T23:59:59-00:01", "253402300859 None"),
    ("2022-05-02T18:36:00+24:00", "-"),
    ("2022-05-02T18:36:00+02:60", "-"),
    ("2022-05-02T18:36:00+0200", "-"),
    ("2022-05-02T18:36:00+02", "-"),
];

#[test]
fn dates_of_texts(rt: HostRuntime) -> Result<(), Fail> {
    for (text, want) in DATES {
        let words = moment_words(rt.alloc(), parse_date(text))?;
        assert_eq!(rt; words.as_str(), *want, "{text}");
    }
    for (text, want) in OFFSETS {
        let words = moment_words(rt.alloc(), parse_offset_date(text))?;
        assert_eq!(rt; words.as_str(), *want, "{text}");
    }
    Ok(())
}

//! What no clause says: worked examples of what devices answer, and that they answer.
ghost use Rattle.cfg_world.specs.Script.{AllFit};
ghost use Rattle.cfg_script.specs.Script.{plain};
ghost use Rattle.cfg_script.specs.Devices.{lists_of};

use crate::world::questions::question;
use cfg_script::{Script, ScriptError, read_script};
use cfg_types::{FailKind, Fault, Instant, OutOfMemory};
use cfg_world::{Answer, Devices, FaultDevices, HandedDevices, ScriptDevices, StreamFault, World};
use std::alloc::{AllocError, Global};
use std::str;
use std::test::Fail;

/// What was answered.
pub(crate) fn answer_words(alloc: Global, answer: &Answer) -> Result<String, AllocError> {
    match answer {
        Answer::Moment(moment) => format!(in alloc; "{}", moment.seconds()),
        Answer::Jitter(number) => format!(in alloc; "{number}"),
        Answer::Contents(bytes) => {
            String::from_str(alloc, str::from_utf8(bytes.as_slice()).unwrap_or("no text"))
        }
        Answer::Written => String::from_str(alloc, "written"),
        Answer::Finished(finished) => format!(in alloc; "ended {}", finished.status),
        Answer::Addresses(addresses) => format!(in alloc; "{addresses:?}"),
        Answer::Replied(_) => String::from_str(alloc, "replied"),
        Answer::Failed(kind) => format!(in alloc; "{kind:?}"),
    }
}

fn devices_by(alloc: Global, script: Script) -> Result<ScriptDevices, OutOfMemory>
    requires { AllFit (lists_of (plain script)) }
{
    ScriptDevices::new(alloc, script.devices)
}

const LISTS: &[u8] =
    br#"{"clock":[5,7],"jitter":[8],"files":[["a","3"]],"unwritable":["c"],"commands":[[3,"o","e"]],"lookups":[["0.0.0.1","::2"]],"replies":{"http":[[200,[["a","b"]],"c"]]}}"#;

/// Devices of a script.
pub(crate) fn scripted_by(alloc: Global, script: &[u8]) -> Result<ScriptDevices, ScriptError> {
    let script = read_script(alloc, script)?;
    Ok(devices_by(alloc, script)?)
}

/// Devices with an item in each list that is used here.
pub(crate) fn scripted(alloc: Global) -> Result<ScriptDevices, ScriptError> {
    scripted_by(alloc, LISTS)
}

const ASKED: &[&str] = &[
    "now",
    "jitter",
    "read a",
    "write b",
    "write c",
    "read b",
    "run x",
    "look-up h",
    "send http://e",
    "run x",
    "look-up h",
    "send http://e",
];

// The answers to these questions, from their receipts.
fn answers_of<D: Devices>(alloc: Global, world: &mut World<D>) -> Result<String, OutOfMemory> {
    let mut words = String::new(alloc);
    for asked in ASKED {
        let receipt = world.ask(question(alloc, asked)?)?;
        let answer = answer_words(alloc, receipt.entry().answer())?;
        words.push_str(answer.as_str())?;
        words.push_str("; ")?;
    }
    Ok(words)
}

#[test]
fn scripted_devices_answer_from_their_lists(rt: HostRuntime) -> Result<(), Fail> {
    let mut world = World::new(rt.alloc(), scripted(rt.alloc())?);
    let words = answers_of(rt.alloc(), &mut world)?;
    assert_eq!(rt;
        words.as_str(),
        "5; 8; 3; written; Io; wJalr; ended 3; [V4(1), V6(2)]; replied; Io; Io; Dispatch; "
    );
    Ok(())
}

#[test]
fn the_call_of_a_number_fails(rt: HostRuntime) -> Result<(), Fail> {
    let table: &[(u64, &str)] = &[
        (
            1,
            "5; 8; Io; written; Io; wJalr; ended 3; [V4(1), V6(2)]; replied; Io; Io; Dispatch; ",
        ),
        (
            5,
            "5; 8; 3; written; Io; wJalr; Io; [V4(1), V6(2)]; replied; ended 3; Io; Dispatch; ",
        ),
        (
            7,
            "5; 8; 3; written; Io; wJalr; ended 3; [V4(1), V6(2)]; Dispatch; Io; Io; replied; ",
        ),
    ];
    for (at, want) in table {
        let devices = FaultDevices::new(scripted(rt.alloc())?, *at);
        let mut world = World::new(rt.alloc(), devices);
        let words = answers_of(rt.alloc(), &mut world)?;
        assert_eq!(rt; words.as_str(), *want, "{at}");
        assert_eq!(rt; world.into_devices().calls(), 10);
    }
    Ok(())
}

#[test]
fn each_question_gets_the_next_answer_if_it_fits(rt: HostRuntime) -> Result<(), Fail> {
    let moment = Instant::epoch().plus(5);
    let answers = vec![in rt.alloc();
        Answer::Moment(moment),
        Answer::Moment(moment),
        Answer::Written,
        Answer::Written,
    ]?;
    let mut world = World::new(rt.alloc(), HandedDevices::new(answers));
    let words = answers_of(rt.alloc(), &mut world)?;
    assert_eq!(rt;
        words.as_str(),
        "5; 0; Io; written; Io; Io; Io; Io; Dispatch; Io; Io; Dispatch; "
    );
    Ok(())
}

#[test]
fn faults_are_shown(rt: HostRuntime) -> Result<(), Fail> {
    let device = Fault::Failed(FailKind::Io);
    let stream = StreamFault::Failed;
    let shown = format!(in rt.alloc(); "{device}; {stream}; {}", StreamFault::OutOfMemory)?;
    assert_eq!(rt;
        shown.as_str(),
        "an I/O error; the stream failed; out of memory"
    );
    Ok(())
}

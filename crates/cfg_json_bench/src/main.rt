//! Reads a document of many unknown members, or a small one many times: `cfg_json_bench COUNT TURNS`.
#![tactic(auto)]

use anyhow::{Context, Result};
use cfg_json::parse_json_credentials;
use std::alloc::{AllocError, Global};
use std::env;

// An object of so many members, each of about 43 bytes, with the fields of a document at its end.
fn document(alloc: Global, count: u32) -> Result<String, AllocError> {
    let mut out = String::from_str(alloc, "{")?;
    for i in 0..count {
        let member = format!(in alloc; "\"member-{i:07}\":\"{i:020}\",")?;
        out.push_str(member.as_str())?;
    }
    out.push_str(
        "\"AccessKeyId\":\"MUA\",\"SecretAccessKey\":\"S\",\"Token\":\"T\",\"Expiration\":\"2016-02-25T06:03:31Z\"}",
    )?;
    Ok(out)
}

fn read_all(alloc: Global, text: &str, turns: u32) -> u32 {
    let mut read = 0;
    for _ in 0..turns {
        if parse_json_credentials(alloc, text).is_ok() && read < turns {
            read += 1;
        }
    }
    read
}

fn number(word: Option<String>) -> Result<u32> {
    let word = word.context("a number is missing")?;
    let number = word.as_str().parse::<u32>().context("a number")?;
    Ok(number)
}

fn main(rt: HostRuntime) -> Result<()> {
    let mut words = env::args(&rt)?;
    let _program = words.next();
    let count = number(words.next())?;
    let turns = number(words.next())?;
    let text = document(rt.alloc(), count)?;
    let read = read_all(rt.alloc(), text.as_str(), turns);
    let bytes = text.len();
    println!(rt; "{bytes} bytes, read {read} times")?;
    Ok(())
}

//! Answers many jobs: each line of standard input is a job in hexadecimal, each line of standard output its answer.
#![tactic(auto)]

mod hex;

use answer::answer::answer;
use answer::stop::Unanswered;
use hex::{from_hex, to_hex};
use std::alloc::Global;
use std::io::{BufRead, BufReader};

/// The line for a job's line.
fn answer_line(heap: Global, line: &str) -> anyhow::Result<String> {
    let job = from_hex(heap, line.as_bytes())?;
    match answer(heap, &job) {
        Ok(bytes) => Ok(to_hex(heap, &bytes)?),
        Err(Unanswered::Translated) => Ok(String::from_str(heap, "translated")?),
        Err(reason) => Err(reason.into()),
    }
}

/// Answers line by line.
fn batch(rt: &HostRuntime) -> anyhow::Result<()> {
    for line in BufReader::new(rt.alloc(), rt.stdin())?.lines(rt.alloc()) {
        let text = answer_line(rt.alloc(), line?.as_str())?;
        println!(rt; "{text}")?;
    }
    Ok(())
}

fn main(rt: HostRuntime) -> anyhow::Result<()> {
    batch(&rt)
}

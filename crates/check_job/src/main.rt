//! Answers the job on standard input with the bytes of its report, or of its first fault's record, on standard output.
#![tactic(auto)]

use answer::answer::answer;
use std::io::{Read, Write};

/// Reads the job, and writes the answer.
fn check(rt: &HostRuntime) -> anyhow::Result<()> {
    let mut job = Vec::new(rt.alloc());
    rt.stdin().read_to_end(&mut job)?;
    let bytes = answer(rt.alloc(), &job)?;
    rt.stdout().write_all(&bytes)?;
    Ok(())
}

fn main(rt: HostRuntime) -> anyhow::Result<()> {
    check(&rt)
}

//! Prints the job on standard input and its report for a person: the machine, each row in words, and what was found.
#![tactic(auto)]

mod faults_in_words;
mod findings;
mod machine;
mod rows_in_words;

use answer::answer::answer;
use anyhow::anyhow;
use faults::fault::Fault;
use faults_in_words::FaultWords;
use findings::print_findings;
use job::{Job, read_job};
use machine::print_machine;
use rows_in_words::print_action_rows;
use std::io::Read;

/// Prints a sound job and its report.
fn print_report(rt: &HostRuntime, job: &Job<'_>, report: &[u8]) -> anyhow::Result<()> {
    print_machine(rt, job, report)?;
    print_action_rows(rt, job.actions)?;
    print_findings(rt, job.formulas, report)
}

/// Reads the job, has it answered, and prints both.
fn show(rt: &HostRuntime) -> anyhow::Result<()> {
    let mut bytes = Vec::new(rt.alloc());
    rt.stdin().read_to_end(&mut bytes)?;
    let length = bytes.len();
    println!(rt; "A job of {length} bytes.")?;
    let answered = answer(rt.alloc(), &bytes)?;
    if let Ok(fault) = Fault::try_from(answered.as_slice()) {
        println!(rt; "Refused: {}.", FaultWords(fault))?;
        return Ok(());
    }
    match read_job(&bytes) {
        Ok(job) => print_report(rt, &job, &answered),
        Err(_) => Err(anyhow!("a report of a broken job")),
    }
}

fn main(rt: HostRuntime) -> anyhow::Result<()> {
    show(&rt)
}

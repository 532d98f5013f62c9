//! The answer to a job.
ghost use Rattle.std.specs.Prelude.{◌≡◌, IfOk};
ghost use Rattle.answer.specs.Answered.{StopsAtFault, TellsFault};

use crate::decode::{mailbox_of, table_rows};
use crate::run::run;
use crate::stop::{Stop, Unanswered};
use compose::hiding::Hiding;
use compose::kept::Kept;
use compose::product::Product;
use job::{SoundJob, read_job};
use std::alloc::Global;
use systems::actions::ActionSet;
use systems::system::System;
use systems::table::Table;

/// Runs the job on the system, with the job's actions hidden if it has some to hide.
fn run_hidden<S: System + Drop>(
    heap: Global,
    sound: &SoundJob<'_>,
    system: S,
) -> Result<Vec<u8>, Stop> {
    let Some(set) = sound.job.hiding else {
        return run(heap, sound, &system);
    };
    let actions = ActionSet::try_from(set).unwrap();
    run(heap, sound, &Hiding { system, actions })
}

/// Runs the job on its table, joined with its mailbox if it has one.
fn run_joined(heap: Global, sound: &SoundJob<'_>, table: Table<'_>) -> Result<Vec<u8>, Stop> {
    let Some(body) = sound.job.mailbox else {
        return run_hidden(heap, sound, table);
    };
    let (right, shared) = mailbox_of(body).unwrap();
    let product = Product {
        left: table,
        right,
        shared,
    };
    product.check()?;
    run_hidden(heap, sound, Kept::new(product))
}

/// The report of a job, or why there is none.
fn report_of(heap: Global, bytes: &[u8]) -> Result<Vec<u8>, Stop>
    ensures { StopsAtFault bytes.now result }
{
    let job = read_job(bytes)?;
    let rows = table_rows(heap, job.table)?;
    let table = Table {
        count: usize::from(job.states),
        start: usize::from(job.start),
        rows: &rows,
    };
    table.check()?;
    run_joined(heap, &SoundJob { job }, table)
}

/// The answer to a job: its report, or the record of its first fault.
pub fn answer(heap: Global, bytes: &[u8]) -> Result<Vec<u8>, Unanswered>
    ensures { IfOk result (λ v. TellsFault bytes.now v.items) }
{
    match report_of(heap, bytes) {
        Ok(report) => Ok(report),
        Err(Stop::Faulty(fault)) => Ok(Vec::from_slice(heap, &fault.record())?),
        Err(Stop::Without(reason)) => Err(reason),
    }
}

//! The reader of a job's bytes.
#![tactic(auto)]

mod field;
mod parts;
mod reader;
#[cfg(test)]
mod tests;

ghost use Rattle.std.specs.Prelude.{◌≡◌, IfOk};
ghost use Rattle.job.specs.Parse.{parse};
ghost use Rattle.job.specs.Shown.{parts_of, shown};
ghost use Rattle.job.specs.WellFormed.{WellFormed};

pub use crate::parts::{Job, SoundJob};
use crate::reader::Reader;
use faults::job::JobFault;

/// Reads a job: its parts, or its first fault.
pub fn read_job(job: &[u8]) -> Result<Job<'_>, JobFault>
    ensures parsed { shown result ≡ parse job.now }
    ensures well { IfOk result (λ j. WellFormed (parts_of j)) }
{
    if job.len() > 65536 {
        return Err(JobFault::TooLong);
    }
    let mut reader = Reader::new(job);
    let mut parts = SoundJob::empty();
    // While let and no for: see Reader::next.
    while let Some(field) = reader.next()? {
        parts.keep(field);
    }
    reader.finish()?;
    Ok(parts.job)
}

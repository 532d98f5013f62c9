//! Layer 1: what is wrong with a job's bytes.
ghost use Rattle.std.specs.Prelude.{◌≡◌, Some};
ghost use Rattle.faults.specs.Numbers.{CodedBy, job_number, job_place};
ghost use Rattle.faults.specs.Words.{fault_in_words};
ghost use Rattle.faults.specs.declared.fault.Fault.TheVariants as layer;

use crate::fault::Fault;
use std::error::Error;
use std::fmt;

/// A fault of a job. Its place is the offset of the field's tag, or the job's length where a field is missing at the end.
#[derive(Clone, Copy, PartialEq, Eq, Debug)]
pub enum JobFault {
    /// The job has too many bytes.
    TooLong,
    /// The field's header or body runs past the end.
    PastEnd(u32),
    /// The field's tag is unknown, or not above the last one.
    Tag(u32),
    /// A field that every job has is skipped, or missing at the end.
    Missing(u32),
    /// The body has a wrong length, or too many rows.
    Length(u32),
    /// There is no such route.
    Route(u32),
}

impl fmt::Display for JobFault {
    ghost output = { λ fault. Some (fault_in_words (layer.Job fault)) };

    fn fmt<W: fmt::Write>(&self, f: &mut fmt::Formatter<W>) -> fmt::Result {
        Fault::from(*self).fmt(f)
    }
}

impl Error for JobFault {}

impl JobFault {
    /// The fault's number.
    pub fn number(&self) -> u8
        ensures { result ≡ job_number self.now }
    {
        match self {
            JobFault::TooLong => 1,
            JobFault::PastEnd(_) => 2,
            JobFault::Tag(_) => 3,
            JobFault::Missing(_) => 4,
            JobFault::Length(_) => 5,
            JobFault::Route(_) => 6,
        }
    }

    /// The fault's place.
    pub fn place(&self) -> u32
        ensures { result ≡ job_place self.now }
    {
        match self {
            JobFault::TooLong => 0,
            JobFault::PastEnd(at)
            | JobFault::Tag(at)
            | JobFault::Missing(at)
            | JobFault::Length(at)
            | JobFault::Route(at) => *at,
        }
    }

    /// The fault of this number at this place, if there is one.
    pub(crate) fn coded(number: u8, place: u32) -> Option<JobFault>
        ensures { CodedBy job_number job_place number place result }
    {
        match (number, place) {
            (1, 0) => Some(JobFault::TooLong),
            (2, at) => Some(JobFault::PastEnd(at)),
            (3, at) => Some(JobFault::Tag(at)),
            (4, at) => Some(JobFault::Missing(at)),
            (5, at) => Some(JobFault::Length(at)),
            (6, at) => Some(JobFault::Route(at)),
            _ => None,
        }
    }
}

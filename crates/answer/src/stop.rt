//! Why a job comes to no report.
ghost use Rattle.std.specs.Prelude.{◌≡◌, Some};
ghost use Rattle.answer.specs.Words.{reason_in_words, stop_in_words};
ghost use Rattle.answer.specs.declared.stop.Stop.TheVariants as carried;
ghost use Rattle.answer.specs.declared.stop.Unanswered.TheVariants as reason;
ghost use Rattle.faults.specs.declared.fault.Fault.TheVariants as layer;

use faults::fault::Fault;
use faults::job::JobFault;
use faults::sheet::SheetFault;
use faults::system::SystemFault;
use std::alloc::AllocError;
use std::error::Error;
use std::fmt;

/// Why a job has no answer.
#[derive(Clone, Copy, PartialEq, Eq, Debug)]
pub enum Unanswered {
    /// There is not enough memory.
    Memory,
    /// The job asks for the translated route, which is not there yet.
    Translated,
}

impl fmt::Display for Unanswered {
    ghost output = { λ u. Some (reason_in_words u) };

    fn fmt<W: fmt::Write>(&self, f: &mut fmt::Formatter<W>) -> fmt::Result {
        match self {
            Unanswered::Memory => write!(f, "not enough memory"),
            Unanswered::Translated => write!(f, "the translated route is not there yet"),
        }
    }
}

impl Error for Unanswered {}

impl From<AllocError> for Unanswered {
    ghost from_gives = { λ _ r. r ≡ reason.Memory };

    fn from(_error: AllocError) -> Unanswered {
        Self::Memory
    }
}

/// What ends the work on a job before its report.
#[derive(Clone, Copy, PartialEq, Eq, Debug)]
pub enum Stop {
    /// The job's first fault.
    Faulty(Fault),
    /// Something that is no fault of the job.
    Without(Unanswered),
}

impl fmt::Display for Stop {
    ghost output = { λ stop. Some (stop_in_words stop) };

    fn fmt<W: fmt::Write>(&self, f: &mut fmt::Formatter<W>) -> fmt::Result {
        match self {
            Stop::Faulty(fault) => fault.fmt(f),
            Stop::Without(reason) => reason.fmt(f),
        }
    }
}

impl Error for Stop {}

// A From for each layer: one for all that is Into<Fault> would overlap with that of AllocError, and one From<Fault> would need a
// map_err at each `?`.
impl From<JobFault> for Stop {
    ghost from_gives = { λ e r. r ≡ carried.Faulty (layer.Job e) };

    fn from(fault: JobFault) -> Stop {
        Stop::Faulty(Fault::Job(fault))
    }
}

impl From<SystemFault> for Stop {
    ghost from_gives = { λ e r. r ≡ carried.Faulty (layer.System e) };

    fn from(fault: SystemFault) -> Stop {
        Stop::Faulty(Fault::System(fault))
    }
}

impl From<SheetFault> for Stop {
    ghost from_gives = { λ e r. r ≡ carried.Faulty (layer.Sheet e) };

    fn from(fault: SheetFault) -> Stop {
        Stop::Faulty(Fault::Sheet(fault))
    }
}

impl From<AllocError> for Stop {
    ghost from_gives = { λ e r. r ≡ carried.Without reason.Memory };

    fn from(_error: AllocError) -> Stop {
        Stop::Without(Unanswered::Memory)
    }
}

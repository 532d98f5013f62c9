//! Faults in words.
use faults::fault::Fault;
use faults::job::JobFault;
use faults::sheet::SheetFault;
use faults::system::SystemFault;
use std::fmt;

/// A fault, to be printed in words.
#[derive(Clone, Copy)]
pub struct FaultWords(pub Fault);

/// A fault that the answer to a job never is.
const UNEXPECTED: &str = "a fault that no job should have";

/// What is wrong with a job's bytes.
fn job_reason(fault: JobFault) -> &'static str {
    match fault {
        JobFault::TooLong => "the job is over 65,536 bytes",
        JobFault::PastEnd(_) => "the field at this offset runs past the end",
        JobFault::Tag(_) => "the tag at this offset is unknown, or not above the last",
        JobFault::Missing(_) => "a field from 01 to 04 is missing at this offset",
        JobFault::Length(_) =>
            "the body of the field at this offset has a wrong length, or too many rows",
        JobFault::Route(_) => "the route is neither 0 nor 1",
    }
}

/// What is wrong with a job's machine.
fn system_reason(fault: SystemFault) -> &'static str {
    match fault {
        SystemFault::Count => "the table's state count is 0, or its start is not below it",
        SystemFault::Row(_) =>
            "the table's row of this number has a state that is not below the count",
        SystemFault::TooLarge => "the machine has too many states or places",
        SystemFault::Buffer => UNEXPECTED,
    }
}

/// What is wrong with a job's rows.
fn sheet_reason(fault: SheetFault) -> &'static str {
    match fault {
        SheetFault::States => "the machine has over 1,024 states",
        SheetFault::Full(_) => "there are 64 rows before this one",
        SheetFault::Kind(_) =>
            "the row of this number has an unknown kind, or tests for the silent action",
        SheetFault::NotEarlier(_) => "the row of this number names a row that is not earlier",
        SheetFault::NotNoted(_) =>
            "the formula row of this number names an action row that is not there",
        SheetFault::Finished(_)
        | SheetFault::StateCount(_)
        | SheetFault::Columns(_)
        | SheetFault::Scratch(_)
        | SheetFault::NoVerdict(_)
        | SheetFault::Output => UNEXPECTED,
    }
}

impl fmt::Display for FaultWords {
    fn fmt<W: fmt::Write>(&self, f: &mut fmt::Formatter<W>) -> fmt::Result {
        let number = self.0.number();
        let place = self.0.place();
        let reason = match self.0 {
            Fault::Job(fault) => job_reason(fault),
            Fault::System(fault) => system_reason(fault),
            Fault::Sheet(fault) => sheet_reason(fault),
        };
        write!(f, "fault {number} at {place}, {reason}")
    }
}

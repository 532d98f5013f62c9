//! A fault of any layer, and its record.
ghost use Rattle.std.specs.Prelude.{◌≡◌, Some};
ghost use Rattle.faults.specs.Numbers.{layer, number, place, FaultCoded};
ghost use Rattle.faults.specs.Record.{fault_record, ReadsRecord};
ghost use Rattle.faults.specs.Words.{fault_in_words, no_record_in_words};
ghost use Rattle.faults.specs.declared.fault.Fault.TheVariants as carried;

use crate::job::JobFault;
use crate::sheet::SheetFault;
use crate::system::SystemFault;
use std::error::Error;
use std::fmt;

/// A fault of any layer. It carries the layer's own fault whole.
#[derive(Clone, Copy, PartialEq, Eq, Debug)]
pub enum Fault {
    Job(JobFault),
    System(SystemFault),
    Sheet(SheetFault),
}

// A From for each layer, since each makes a variant of its own; and a Display for each, which is that of the fault that carries it.
impl From<JobFault> for Fault {
    ghost from_gives = { λ e r. r ≡ carried.Job e };

    fn from(cause: JobFault) -> Fault {
        Fault::Job(cause)
    }
}

impl From<SystemFault> for Fault {
    ghost from_gives = { λ e r. r ≡ carried.System e };

    fn from(cause: SystemFault) -> Fault {
        Fault::System(cause)
    }
}

impl From<SheetFault> for Fault {
    ghost from_gives = { λ e r. r ≡ carried.Sheet e };

    fn from(cause: SheetFault) -> Fault {
        Fault::Sheet(cause)
    }
}

impl fmt::Display for Fault {
    ghost output = { λ fault. Some (fault_in_words fault) };

    fn fmt<W: fmt::Write>(&self, f: &mut fmt::Formatter<W>) -> fmt::Result {
        let number = self.number();
        let layer = self.layer();
        let place = self.place();
        write!(f, "fault {number} of layer {layer} at {place}")
    }
}

impl Error for Fault {}

/// The bytes are no fault's record.
#[derive(Clone, Copy, PartialEq, Eq, Debug)]
pub struct NoRecord;

impl fmt::Display for NoRecord {
    ghost output = { λ _. Some no_record_in_words };

    fn fmt<W: fmt::Write>(&self, f: &mut fmt::Formatter<W>) -> fmt::Result {
        f.write_str("the bytes are no fault's record")
    }
}

impl Error for NoRecord {}

impl TryFrom<&[u8]> for Fault {
    type Error = NoRecord;

    ghost try_from_gives = { λ bytes r. ReadsRecord bytes.now r };

    fn try_from(bytes: &[u8]) -> Result<Fault, NoRecord> {
        let &[0x8f, 0, 6, layer, number, a, b, c, d] = bytes else {
            return Err(NoRecord);
        };
        let place = u32::from_be_bytes([a, b, c, d]);
        Fault::coded(layer, number, place).ok_or(NoRecord)
    }
}

// Each layer has `number`, `place` and `coded` by tables of its own. A trait would gain nothing: Fault alone asks for them, and knows the
// layer.
impl Fault {
    /// The layer: 1 a job, 2 a system or a structure, 3 a sheet.
    pub fn layer(&self) -> u8
        ensures { result ≡ layer self.now }
    {
        match self {
            Fault::Job(_) => 1,
            Fault::System(_) => 2,
            Fault::Sheet(_) => 3,
        }
    }

    /// The fault's number, which in its layer tells it from all others.
    pub fn number(&self) -> u8
        ensures { result ≡ number self.now }
    {
        match self {
            Fault::Job(fault) => fault.number(),
            Fault::System(fault) => fault.number(),
            Fault::Sheet(fault) => fault.number(),
        }
    }

    /// Where it is.
    pub fn place(&self) -> u32
        ensures { result ≡ place self.now }
    {
        match self {
            Fault::Job(fault) => fault.place(),
            Fault::System(fault) => fault.place(),
            Fault::Sheet(fault) => fault.place(),
        }
    }

    /// The fault of this layer with this number and this place, if there is one.
    fn coded(layer: u8, number: u8, place: u32) -> Option<Fault>
        ensures { FaultCoded layer number place result }
    {
        match layer {
            1 => JobFault::coded(number, place).map(Fault::Job),
            2 => SystemFault::coded(number, place).map(Fault::System),
            3 => SheetFault::coded(number, place).map(Fault::Sheet),
            _ => None,
        }
    }

    /// The fault's record.
    pub fn record(&self) -> [u8; 9]
        ensures { result ≡ fault_record self.now }
    {
        let [a, b, c, d] = self.place().to_be_bytes();
        [0x8f, 0, 6, self.layer(), self.number(), a, b, c, d]
    }
}

//! Layer 2: what is wrong with a system or a structure.
ghost use Rattle.std.specs.Prelude.{◌≡◌, Some};
ghost use Rattle.faults.specs.Numbers.{CodedBy, system_number, system_place};
ghost use Rattle.faults.specs.Words.{fault_in_words};
ghost use Rattle.faults.specs.declared.fault.Fault.TheVariants as layer;

use crate::fault::Fault;
use std::error::Error;
use std::fmt;

/// A fault of a system, or of labelling on a structure.
#[derive(Clone, Copy, PartialEq, Eq, Debug)]
pub enum SystemFault {
    /// The state count is out of range, or the start is not below it.
    Count,
    /// The table's row of this number has a state that is not below the count.
    Row(u32),
    /// There are too many rows, states or places.
    TooLarge,
    /// The buffer has no room for three columns of nodes.
    Buffer,
}

impl fmt::Display for SystemFault {
    ghost output = { λ fault. Some (fault_in_words (layer.System fault)) };

    fn fmt<W: fmt::Write>(&self, f: &mut fmt::Formatter<W>) -> fmt::Result {
        Fault::from(*self).fmt(f)
    }
}

impl Error for SystemFault {}

impl SystemFault {
    /// The fault's number.
    pub fn number(&self) -> u8
        ensures { result ≡ system_number self.now }
    {
        match self {
            SystemFault::Count => 7,
            SystemFault::Row(_) => 8,
            SystemFault::TooLarge => 9,
            SystemFault::Buffer => 18,
        }
    }

    /// The fault's place.
    pub fn place(&self) -> u32
        ensures { result ≡ system_place self.now }
    {
        match self {
            SystemFault::Count | SystemFault::TooLarge | SystemFault::Buffer => 0,
            SystemFault::Row(row) => *row,
        }
    }

    /// The fault of this number at this place, if there is one.
    pub(crate) fn coded(number: u8, place: u32) -> Option<SystemFault>
        ensures { CodedBy system_number system_place number place result }
    {
        match (number, place) {
            (7, 0) => Some(SystemFault::Count),
            (8, row) => Some(SystemFault::Row(row)),
            (9, 0) => Some(SystemFault::TooLarge),
            (18, 0) => Some(SystemFault::Buffer),
            _ => None,
        }
    }
}

//! Layer 3: what is wrong with a call on a sheet.
ghost use Rattle.std.specs.Prelude.{◌≡◌, Some};
ghost use Rattle.faults.specs.Numbers.{CodedBy, sheet_number, sheet_place};
ghost use Rattle.faults.specs.Words.{fault_in_words};
ghost use Rattle.faults.specs.declared.fault.Fault.TheVariants as layer;

use crate::fault::Fault;
use std::error::Error;
use std::fmt;

/// A fault of a call on a sheet.
#[derive(Clone, Copy, PartialEq, Eq, Debug)]
pub enum SheetFault {
    /// The number of states is out of range.
    States,
    /// The list of rows is full.
    Full(u32),
    /// The row's kind is unknown, or it is the test for the silent action.
    Kind(u32),
    /// The row names a row of its own list that is not earlier.
    NotEarlier(u32),
    /// The row names an action row that is not noted yet.
    NotNoted(u32),
    /// Every row is finished.
    Finished(u32),
    /// The system has another number of states than the sheet.
    StateCount(u32),
    /// The columns are too short.
    Columns(u32),
    /// The scratch is too short.
    Scratch(u32),
    /// The row is not finished, or there is no such state.
    NoVerdict(u32),
    /// The output is too short.
    Output,
}

impl fmt::Display for SheetFault {
    ghost output = { λ fault. Some (fault_in_words (layer.Sheet fault)) };

    fn fmt<W: fmt::Write>(&self, f: &mut fmt::Formatter<W>) -> fmt::Result {
        Fault::from(*self).fmt(f)
    }
}

impl Error for SheetFault {}

impl SheetFault {
    /// The fault's number.
    pub fn number(&self) -> u8
        ensures { result ≡ sheet_number self.now }
    {
        match self {
            SheetFault::States => 10,
            SheetFault::Full(_) => 11,
            SheetFault::Kind(_) => 12,
            SheetFault::NotEarlier(_) => 13,
            SheetFault::NotNoted(_) => 14,
            SheetFault::Finished(_) => 15,
            SheetFault::StateCount(_) => 16,
            SheetFault::Columns(_) => 17,
            SheetFault::Scratch(_) => 18,
            SheetFault::NoVerdict(_) => 21,
            SheetFault::Output => 22,
        }
    }

    /// The fault's place.
    pub fn place(&self) -> u32
        ensures { result ≡ sheet_place self.now }
    {
        match self {
            SheetFault::States | SheetFault::Output => 0,
            SheetFault::Full(row)
            | SheetFault::Kind(row)
            | SheetFault::NotEarlier(row)
            | SheetFault::NotNoted(row)
            | SheetFault::NoVerdict(row) => *row,
            SheetFault::Finished(rows)
            | SheetFault::StateCount(rows)
            | SheetFault::Columns(rows)
            | SheetFault::Scratch(rows) => *rows,
        }
    }

    /// The fault of this number at this place, if there is one.
    pub(crate) fn coded(number: u8, place: u32) -> Option<SheetFault>
        ensures { CodedBy sheet_number sheet_place number place result }
    {
        match (number, place) {
            (10, 0) => Some(SheetFault::States),
            (11, row) => Some(SheetFault::Full(row)),
            (12, row) => Some(SheetFault::Kind(row)),
            (13, row) => Some(SheetFault::NotEarlier(row)),
            (14, row) => Some(SheetFault::NotNoted(row)),
            (15, rows) => Some(SheetFault::Finished(rows)),
            (16, rows) => Some(SheetFault::StateCount(rows)),
            (17, rows) => Some(SheetFault::Columns(rows)),
            (18, rows) => Some(SheetFault::Scratch(rows)),
            (21, row) => Some(SheetFault::NoVerdict(row)),
            (22, 0) => Some(SheetFault::Output),
            _ => None,
        }
    }
}

//! The bytes by which a row is entered.
ghost use Rattle.rows.specs.Fields.{bytes_of_action, bytes_of_formula};
ghost use Rattle.rows.specs.Words.{unknown_kind_in_words};
ghost use Rattle.std.specs.Prelude.{◌≡◌, Some};

use std::error::Error;
use std::fmt;

// A kind is a number here: these are the bytes that a caller has, and TryFrom is the test of them.
/// The fields of an action row: its kind, and x and y, of which a kind may use fewer.
#[derive(Clone, Copy, PartialEq, Eq, Debug)]
pub struct ActionFields {
    pub kind: u8,
    pub x: u8,
    pub y: u8,
}

/// The fields of a formula row: its kind; the formula rows r1 and r2; the action rows on the way and at its end.
#[derive(Clone, Copy, PartialEq, Eq, Debug)]
pub struct FormulaFields {
    pub kind: u8,
    pub r1: u8,
    pub by: u8,
    pub last: u8,
    pub r2: u8,
}

/// A kind that no row has.
#[derive(Clone, Copy, PartialEq, Eq, Debug)]
pub struct UnknownKind(pub u8);

impl From<[u8; 3]> for ActionFields {
    ghost from_gives = { λ bytes fields. bytes ≡ bytes_of_action fields };

    fn from(bytes: [u8; 3]) -> ActionFields {
        let [kind, x, y] = bytes;
        ActionFields { kind, x, y }
    }
}

impl From<[u8; 5]> for FormulaFields {
    ghost from_gives = { λ bytes fields. bytes ≡ bytes_of_formula fields };

    fn from(bytes: [u8; 5]) -> FormulaFields {
        let [kind, r1, by, last, r2] = bytes;
        FormulaFields {
            kind,
            r1,
            by,
            last,
            r2,
        }
    }
}

impl fmt::Display for UnknownKind {
    ghost output = { λ e. Some (unknown_kind_in_words e) };

    fn fmt<W: fmt::Write>(&self, f: &mut fmt::Formatter<W>) -> fmt::Result {
        write!(f, "no row has kind {}", self.0)
    }
}

impl Error for UnknownKind {}

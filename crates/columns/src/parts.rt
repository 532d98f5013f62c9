//! The parts of a formula row.
ghost use Rattle.std.specs.Prelude.{◌≡◌};
ghost use Rattle.columns.specs.Parted.{Parted};

use crate::connective::Connective;
use crate::connective::Connective::{And, Next, Not, Silent, True, Until, UntilBy};
use crate::quantifier::Quantifier;
use crate::quantifier::Quantifier::{Always, Exists};
use rows::rows::FormulaRow;

// 0 and no Option: each operator is defined over two tests and two rows, and its verdict does not rest on one that it has no use for.
/// A formula row as its operator, and the numbers of the rows that it names: the action rows on the way and at its end, and
/// the formula rows. A number that the operator does not use is 0, and a formula row that it names alone stands twice.
#[derive(Clone, Copy, PartialEq, Eq, Debug)]
pub struct Parts {
    pub quantifier: Quantifier,
    pub connective: Connective,
    pub by: u8,
    pub closing: u8,
    pub first: u8,
    pub last: u8,
}

impl Parts {
    /// An operator with its action rows and its formula rows.
    fn new(quantifier: Quantifier, connective: Connective, tests: (u8, u8), rows: (u8, u8)) -> Parts
        ensures operator { (result.quantifier ≡ quantifier) × (result.connective ≡ connective) }
        ensures tests { (result.by ≡ tests.0) × (result.closing ≡ tests.1) }
        ensures rows { (result.first ≡ rows.0) × (result.last ≡ rows.1) }
    {
        Parts {
            quantifier,
            connective,
            by: tests.0,
            closing: tests.1,
            first: rows.0,
            last: rows.1,
        }
    }
}

/// The parts of a row.
impl From<FormulaRow> for Parts {
    ghost from_gives = { Parted };

    fn from(row: FormulaRow) -> Parts {
        match row {
            FormulaRow::True => Parts::new(Exists, True, (0, 0), (0, 0)),
            FormulaRow::Not(p) => Parts::new(Exists, Not, (0, 0), (p, p)),
            FormulaRow::And(p, q) => Parts::new(Exists, And, (0, 0), (p, q)),
            FormulaRow::ExistsNext { by, then } => Parts::new(Exists, Next, (by, 0), (then, then)),
            FormulaRow::ExistsSilent { then } => Parts::new(Exists, Silent, (0, 0), (then, then)),
            FormulaRow::AllNext { by, then } => Parts::new(Always, Next, (by, 0), (then, then)),
            FormulaRow::AllSilent { then } => Parts::new(Always, Silent, (0, 0), (then, then)),
            FormulaRow::ExistsUntil { hold, by, goal } => Parts::new(
                Exists,
                Until,
                (by, 0),
                (hold, goal),
            ),
            FormulaRow::ExistsUntilBy {
                hold,
                by,
                last,
                goal,
            } => Parts::new(Exists, UntilBy, (by, last), (hold, goal)),
            FormulaRow::AllUntil { hold, by, goal } => Parts::new(
                Always,
                Until,
                (by, 0),
                (hold, goal),
            ),
            FormulaRow::AllUntilBy {
                hold,
                by,
                last,
                goal,
            } => Parts::new(Always, UntilBy, (by, last), (hold, goal)),
        }
    }
}

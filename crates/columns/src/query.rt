//! What is to be labelled.
use rows::rows::{ActionRow, FormulaRow};

/// A formula row to be labelled, the action rows that it may name, and the columns of the rows before it.
#[derive(Clone, Copy, PartialEq, Eq, Debug)]
pub struct Query<'r, 'c> {
    pub actions: &'r [ActionRow],
    pub row: FormulaRow,
    pub earlier: &'c [u8],
}

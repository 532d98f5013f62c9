//! Sheets are made and emptied, and rows are added.
ghost use Rattle.std.specs.Prelude.{◌≡◌, IfOk};
ghost use Rattle.faults.specs.Refusal.{Outcome};
ghost use Rattle.rows.specs.Rows.{action_row, formula_row};
ghost use Rattle.sheet.specs.Book.{shown};
ghost use Rattle.sheet.specs.Single.{Begun, Noted, Entered};
ghost use Rattle.sheet.specs.Refusals.{refusal_begin, refusal_note, refusal_enter};

use crate::limits::{MOST_ROWS, MOST_STATES};
use crate::state::Sheet;
use faults::sheet::SheetFault;
use rows::fields::{ActionFields, FormulaFields};
use std::alloc::{AllocError, Global};

impl Sheet {
    /// A sheet without rows, for one state.
    pub fn new(heap: Global) -> Result<Sheet, AllocError>
        ensures { IfOk result (λ s. Begun s 1) }
    {
        let actions = Vec::with_capacity(heap, MOST_ROWS)?;
        let rows = Vec::with_capacity(heap, MOST_ROWS)?;
        let finished = Vec::with_capacity(heap, MOST_ROWS)?;
        Ok(Sheet {
            n: 1,
            actions,
            rows,
            finished,
        })
    }

    /// Drops all rows, and sets the number of states.
    pub fn begin(&mut self, n: usize) -> Result<(), SheetFault>
        ensures { Outcome result (refusal_begin n) (self.new ≡ self.old) (λ _. Begun self.new n) }
    {
        if !(1..=MOST_STATES).contains(&n) {
            return Err(SheetFault::States);
        }
        self.finished.clear();
        self.rows.clear();
        self.actions.clear();
        self.n = n;
        Ok(())
    }

    // `note` and `enter` are alike but for their lists and what is checked. A function for the three lines that they share would need
    // as many clauses.
    /// Adds an action row, and answers its number.
    pub fn note(&mut self, fields: ActionFields) -> Result<u8, SheetFault>
        ensures { Outcome result (refusal_note (shown self.old) fields.kind fields.x fields.y) (self.new ≡ self.old) (Noted self.old self.new (action_row fields.kind fields.x fields.y)) }
    {
        let row = self.admit_action(fields)?;
        let number = self.actions.len() as u8;
        self.actions.push_reserved(row);
        Ok(number)
    }

    /// Adds a formula row, and answers its number.
    pub fn enter(&mut self, fields: FormulaFields) -> Result<u8, SheetFault>
        ensures { Outcome result (refusal_enter (shown self.old) fields.kind fields.r1 fields.by fields.last fields.r2) (self.new ≡ self.old) (Entered self.old self.new (formula_row fields.kind fields.r1 fields.by fields.last fields.r2)) }
    {
        let row = self.admit_formula(fields)?;
        let number = self.rows.len() as u8;
        self.rows.push_reserved(row);
        Ok(number)
    }
}

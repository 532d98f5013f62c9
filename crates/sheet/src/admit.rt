//! The refusals of `note` and `enter`, in their order.
ghost use Rattle.std.specs.Prelude.{◌≡◌, Some};
ghost use Rattle.faults.specs.Refusal.{Outcome};
ghost use Rattle.rows.specs.Rows.{action_row, formula_row};
ghost use Rattle.sheet.specs.Book.{shown};
ghost use Rattle.sheet.specs.Refusals.{refusal_note, refusal_enter};

use crate::limits::MOST_ROWS;
use crate::state::Sheet;
use faults::sheet::SheetFault;
use rows::fields::{ActionFields, FormulaFields};
use rows::rows::{ActionRow, FormulaRow};

impl Sheet {
    /// The action row that `note` would add.
    pub(crate) fn admit_action(&self, fields: ActionFields) -> Result<ActionRow, SheetFault>
        ensures { Outcome result (refusal_note (shown self.now) fields.kind fields.x fields.y) (Unit {0}) (λ row. action_row fields.kind fields.x fields.y ≡ Some row) }
    {
        let number = self.actions.len();
        let place = number as u32;
        if number >= MOST_ROWS {
            return Err(SheetFault::Full(place));
        }
        let row = ActionRow::try_from(fields).map_err(|_| SheetFault::Kind(place))?;
        if row == ActionRow::Is(0) {
            return Err(SheetFault::Kind(place));
        }
        if row.names_beyond(number) {
            return Err(SheetFault::NotEarlier(place));
        }
        Ok(row)
    }

    // Like admit_action but for the list, the type of the row, and one refusal of its own: Is(0) there, NotNoted here.
    /// The formula row that `enter` would add.
    pub(crate) fn admit_formula(&self, fields: FormulaFields) -> Result<FormulaRow, SheetFault>
        ensures { Outcome result (refusal_enter (shown self.now) fields.kind fields.r1 fields.by fields.last fields.r2) (Unit {0}) (λ row. formula_row fields.kind fields.r1 fields.by fields.last fields.r2 ≡ Some row) }
    {
        let number = self.rows.len();
        let place = number as u32;
        if number >= MOST_ROWS {
            return Err(SheetFault::Full(place));
        }
        let row = FormulaRow::try_from(fields).map_err(|_| SheetFault::Kind(place))?;
        if row.rows_beyond(number) {
            return Err(SheetFault::NotEarlier(place));
        }
        if row.tests_beyond(self.actions.len()) {
            return Err(SheetFault::NotNoted(place));
        }
        Ok(row)
    }
}

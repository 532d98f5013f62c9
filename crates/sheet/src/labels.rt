//! Rows are labelled.
ghost use Rattle.std.specs.Prelude.{◌≡◌, ◌<◌, [], ◌∷◌, ◌++◌, length, replicate, Some, None, vec_len};
ghost use Rattle.std.specs.List.{slice_get};
ghost use Rattle.faults.specs.Refusal.{Outcome};
ghost use Rattle.direct.specs.Labelled.{Roomy, Labels};
ghost use Rattle.rows.specs.declared.route.Route.TheVariants.{Direct};
ghost use Rattle.sheet.specs.Book.{shown, rounds_of, finishing};
ghost use Rattle.sheet.specs.Refusals.{refusal_direct};
ghost use Rattle.sheet.specs.Labelling.{Fills, Finishes};

use crate::state::{Finish, Sheet};
use crate::wiped::Wiped;
use columns::query::Query;
use direct::label::label;
use faults::sheet::SheetFault;
use rows::route::Route;
use rows::rows::FormulaRow;
use systems::system::System;

impl Sheet {
    /// The first unfinished row, or the first fault of labelling it on the system.
    fn admit_direct<S: System>(
        &self,
        system: &S,
        columns: usize,
        scratch: usize,
    ) -> Result<FormulaRow, SheetFault>
        ensures { let b = shown self.now in Outcome result (refusal_direct (S.System.meaning system.now) b columns scratch) (Unit {0}) (λ row. slice_get b.rows (length b.finished) ≡ Some row) }
    {
        let number = self.finished.len();
        let place = number as u32;
        let row = *self.rows.get(number).ok_or(SheetFault::Finished(place))?;
        if system.count() != self.n {
            return Err(SheetFault::StateCount(place));
        }
        if columns < (number + 1) * self.n {
            return Err(SheetFault::Columns(place));
        }
        if scratch < self.n {
            return Err(SheetFault::Scratch(place));
        }
        Ok(row)
    }

    /// Labels a row over the columns of the rows before it, and answers the rounds.
    fn label_row<S: System>(
        &self,
        system: &S,
        row: &FormulaRow,
        earlier: &[u8],
        column: &mut [u8],
        scratch: &mut [u8],
    ) -> u16
        requires count { (S.System.meaning system.now).count ≡ self.now.n }
        requires room { Roomy self.now.n column.old scratch.old }
        ensures { Labels (S.System.meaning system.now) (shown self.now).actions row.now earlier.now column.new result }
    {
        let query = Query {
            actions: &self.actions,
            row: *row,
            earlier,
        };
        label(system, query, column, scratch).unwrap() as u16
    }

    /// Fills the column of the first unfinished row, and answers the rounds.
    fn fill_column<S: System>(
        &self,
        system: &S,
        row: &FormulaRow,
        columns: &mut [u8],
        scratch: &mut [u8],
    ) -> u16
        requires first { let b = shown self.now in slice_get b.rows (length b.finished) ≡ Some row.now }
        requires admitted { refusal_direct (S.System.meaning system.now) (shown self.now) (length columns.old) (length scratch.old) ≡ None }
        ensures { Fills (S.System.meaning system.now) (shown self.now) columns.old columns.new result }
    {
        // The query is made in label_row: to make it here was tried, and the proof did not close.
        let (earlier, rest) = columns.split_at_mut(self.finished.len() * self.n);
        self.label_row(system, row, earlier, &mut rest[..self.n], scratch)
    }

    /// Finishes the first unfinished row by a route in so many rounds.
    fn finish(&mut self, route: Route, rounds: u16)
        requires { vec_len self.old.finished < vec_len self.old.rows }
        ensures book { shown self.new ≡ finishing route (shown self.old) }
        ensures rounds { rounds_of self.new ≡ rounds_of self.old ++ rounds ∷ [] }
    {
        self.finished.push_reserved(Finish { route, rounds });
    }

    // Columns and scratch stay lent slices, one by one: the refusals speak of the length of each (docs/DECISIONS.md).
    /// Labels the first unfinished row on the system itself, finishes it, and answers its rounds.
    pub fn direct<S: System>(
        &mut self,
        system: &S,
        columns: &mut [u8],
        scratch: &mut [u8],
    ) -> Result<u16, SheetFault>
        ensures labels { Outcome result (refusal_direct (S.System.meaning system.now) (shown self.old) (length columns.old) (length scratch.old)) ((self.new ≡ self.old) × (columns.new ≡ columns.old)) (Finishes (S.System.meaning system.now) Direct self.old self.new columns.old columns.new) }
        ensures wiped { scratch.new ≡ replicate (length scratch.old) 0 }
    {
        let guard = Wiped { bytes: scratch };
        let row = self.admit_direct(system, columns.len(), guard.bytes.len())?;
        let rounds = self.fill_column(system, &row, columns, &mut *guard.bytes);
        self.finish(Route::Direct, rounds);
        Ok(rounds)
    }
}

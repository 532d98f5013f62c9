//! Verdicts are read.
ghost use Rattle.std.specs.Prelude.{length};
ghost use Rattle.faults.specs.Refusal.{Outcome};
ghost use Rattle.sheet.specs.Book.{shown};
ghost use Rattle.sheet.specs.Refusals.{refusal_read};
ghost use Rattle.sheet.specs.Single.{Verdict};

use crate::state::Sheet;
use faults::sheet::SheetFault;

impl Sheet {
    /// The verdict on a finished row at a state, and the row's rounds.
    // A pair, not a struct: a rule of the project (docs/DECISIONS.md).
    pub fn read(&self, columns: &[u8], row: u8, state: usize) -> Result<(bool, u16), SheetFault>
        ensures { Outcome result (refusal_read (shown self.now) (length columns.now) row state) (Unit {0}) (Verdict self.now columns.now row state) }
    {
        let place = u32::from(row);
        let row = usize::from(row);
        let finish = self.finished.get(row).ok_or(SheetFault::NoVerdict(place))?;
        if state >= self.n {
            return Err(SheetFault::NoVerdict(place));
        }
        let column = columns
            .get(row * self.n..(row + 1) * self.n)
            .ok_or(SheetFault::Columns(place))?;
        Ok((column[state] == 1, finish.rounds))
    }
}

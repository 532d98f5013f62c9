//! The report of a sheet.
ghost use Rattle.std.specs.Prelude.{◌≡◌, ◌+◌, ◌*◌, ◌<◌, ◌≤◌, length, if◌then◌else◌, vec_len};
ghost use Rattle.faults.specs.Refusal.{Outcome};
ghost use Rattle.columns.specs.Marks.{marks};
ghost use Rattle.rows.specs.RouteNumber.{route_number};
ghost use Rattle.sheet.specs.Book.{shown};
ghost use Rattle.sheet.specs.Limits.{most_states};
ghost use Rattle.sheet.specs.Refusals.{report_length, refusal_report};
ghost use Rattle.sheet.specs.Report.{yes_count, head_field, row_field, Reported};

use crate::state::{Finish, Sheet};
use faults::sheet::SheetFault;

/// How many states a column says yes at.
fn count_yes(column: &[u8]) -> u16
    requires { length column.now ≤ most_states }
    ensures { result ≡ yes_count column.now }
{
    // A loop over the column's bytes and no chain: a rule of the project (docs/DECISIONS.md).
    let mut yes = 0;
    for byte in column {
        yes += u16::from(*byte == 1);
    }
    yes
}

impl Finish {
    /// The field of the finished row with this number and this column.
    fn field(&self, row: u8, column: &[u8], start: usize) -> [u8; 10]
        requires start { start < length column.now }
        requires few { length column.now ≤ most_states }
        ensures { result ≡ row_field row (route_number self.now.route) self.now.rounds (if marks column.now start then 1 else 0) (yes_count column.now) }
    {
        let route = u8::from(self.route);
        let [rounds_high, rounds_low] = self.rounds.to_be_bytes();
        let verdict = u8::from(column[start] == 1);
        let [yes_high, yes_low] = count_yes(column).to_be_bytes();
        [
            0x82,
            0,
            7,
            row,
            route,
            rounds_high,
            rounds_low,
            verdict,
            yes_high,
            yes_low,
        ]
    }
}

impl Sheet {
    /// The report's first field.
    fn head_field(&self) -> [u8; 6]
        ensures { result ≡ head_field self.now.n (vec_len self.now.finished) }
    {
        let [high, low] = (self.n as u16).to_be_bytes();
        [0x81, 0, 3, high, low, self.finished.len() as u8]
    }

    /// The length of the report, or its first fault.
    fn admit_report(&self, columns: usize, start: usize, output: usize) -> Result<usize, SheetFault>
        ensures { Outcome result (refusal_report (shown self.now) columns start output) (Unit {0}) (λ k. k ≡ report_length (shown self.now)) }
    {
        let rows = self.finished.len();
        if start >= self.n {
            return Err(SheetFault::NoVerdict(0));
        }
        if columns < rows * self.n {
            return Err(SheetFault::Columns(0));
        }
        let length = 6 + 10 * rows;
        if output < length {
            return Err(SheetFault::Output);
        }
        Ok(length)
    }

    /// Writes the report to the front of the output, and answers its length.
    pub fn report(
        &self,
        columns: &[u8],
        start: usize,
        output: &mut [u8],
    ) -> Result<usize, SheetFault>
        ensures { Outcome result (refusal_report (shown self.now) (length columns.now) start (length output.old)) (output.new ≡ output.old) (Reported self.now columns.now start output.old output.new) }
    {
        let length = self.admit_report(columns.len(), start, output.len())?;
        output[..6].copy_from_slice(&self.head_field());
        for (row, finish) in self.finished.iter().enumerate() {
            // Column and output are cut by the row's number, which the field holds too: with chunks_exact and chunks_exact_mut the loop would
            // be over three iterators in step and their count, which is no plainer.
            let column = &columns[row * self.n..(row + 1) * self.n];
            let field = finish.field(row as u8, column, start);
            output[6 + 10 * row..16 + 10 * row].copy_from_slice(&field);
        }
        Ok(length)
    }
}

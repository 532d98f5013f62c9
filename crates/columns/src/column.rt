//! Columns of verdicts.
ghost use Rattle.std.specs.Prelude.{◌≡◌, ◌-◌, ◌*◌, ◌^◌, min};
ghost use Rattle.columns.specs.Marks.{marked, yes};

/// A column: one byte for each state. 1 is yes; all else is no, and so is a byte that is not there.
#[derive(Clone, Copy, PartialEq, Eq, Debug)]
pub struct Column<'a> {
    pub bytes: &'a [u8],
}

impl<'a> Column<'a> {
    // One lent slice for all columns: a rule of the project (docs/DECISIONS.md).
    /// The column of a row, where `columns` holds those of all rows, `count` bytes each.
    pub fn of_row(columns: &'a [u8], count: usize, row: u8) -> Column<'a>
        ensures { marked result ≡ yes columns.now count row }
    {
        // A product that is too large is past every list.
        let start = usize::from(row).saturating_mul(count);
        Column {
            bytes: columns.get(start..).unwrap_or(&[]),
        }
    }

    /// Whether the column says yes at a state.
    pub fn says_yes(&self, state: usize) -> bool
        ensures { result ≡ marked self.now state }
    {
        self.bytes.get(state) == Some(&1)
    }
}

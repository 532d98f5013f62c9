//! The test of an action, row by row.
ghost use Rattle.std.specs.Prelude.{◌≡◌, Some, None, slice_index_or, slice_set};
ghost use Rattle.rows.specs.Tests.{row_says, meets, Remembers};

use crate::rows::ActionRow;

/// As many rows as a row can name.
const NAMES: usize = 256;

/// What the row says of a visible action. The rows that it names are earlier ones, so its number falls at each call; what
/// a row has said once is in `known`, and is not asked again.
fn row_says(rows: &[ActionRow], row: usize, action: u8, known: &mut [Option<bool>]) -> bool
    requires { Remembers rows.now action known.old }
    ensures answer { result ≡ row_says rows.now row action }
    ensures memory { Remembers rows.now action known.new }
{
    if row >= rows.len() || rows[row].names_beyond(row) {
        return false;
    }
    if let Some(answer) = recall(known, row) {
        return answer;
    }
    let answer = match rows[row] {
        ActionRow::Any => true,
        ActionRow::Is(x) => action == x,
        ActionRow::Not(p) => !row_says(rows, usize::from(p), action, known),
        ActionRow::And(p, q) => row_says(rows, usize::from(p), action, known)
            && row_says(rows, usize::from(q), action, known),
    };
    remember(known, row, answer);
    answer
}

/// Keeps the row's answer, if there is room for it.
fn remember(known: &mut [Option<bool>], row: usize, answer: bool)
    ensures { known.new ≡ slice_set known.old row (Some answer) }
{
    // get_mut was tried: after it a proof knows the length of the slice, not its elements.
    if row < known.len() {
        known[row] = Some(answer);
    }
}

/// What is known of a row, if anything is.
fn recall(known: &[Option<bool>], row: usize) -> Option<bool>
    ensures { result ≡ slice_index_or known.now row None }
{
    known.get(row).copied().flatten()
}

/// Whether the action meets the row: it is visible, and the row accepts it through the earlier rows that it names.
pub fn action_meets(rows: &[ActionRow], row: usize, action: u8) -> bool
    ensures { result ≡ meets rows.now row action }
{
    let mut known = [None; NAMES];
    action != 0 && row_says(rows, row, action, &mut known)
}

//! The sheet.
ghost use Rattle.std.specs.Prelude.{◌≤◌, vec_len, vec_capacity};
ghost use Rattle.sheet.specs.Limits.{most_states, most_rows};

use rows::route::Route;
use rows::rows::{ActionRow, FormulaRow};

/// The route and the rounds of a finished row.
#[derive(Clone, Copy, PartialEq, Eq, Debug)]
pub struct Finish {
    pub route: Route,
    pub rounds: u16,
}

/// A number of states, action rows, and formula rows of which the first ones are finished.
/// Room for all rows is taken when the sheet is made, so that no later call can lack memory.
#[derive(Drop)]
pub struct Sheet {
    pub(crate) n: usize,
    pub(crate) actions: Vec<ActionRow>,
    // Two lists, not one of rows with an Option<Finish> each: that one would need the fact that the finished rows stand first,
    // and a search for the first unfinished one.
    pub(crate) rows: Vec<FormulaRow>,
    pub(crate) finished: Vec<Finish>,
    ghost states: { (1 ≤ n) × (n ≤ most_states) },
    ghost room: { (most_rows ≤ vec_capacity actions) × (most_rows ≤ vec_capacity rows) × (most_rows ≤ vec_capacity finished) },
    ghost few: { (vec_len actions ≤ most_rows) × (vec_len rows ≤ most_rows) },
    ghost prefix: { vec_len finished ≤ vec_len rows },
}

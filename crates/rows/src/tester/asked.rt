//! Testers: made once for a row, then asked of actions.
ghost use Rattle.std.specs.Prelude.{◌≡◌};
ghost use Rattle.rows.specs.Tester.{accepted, TesterOf};

use super::Tester;
use crate::meeting::action_meets;
use crate::rows::ActionRow;
use std::array;

impl<'a> Tester<'a> {
    /// The tester of the row: each action is tested once.
    pub fn new(rows: &'a [ActionRow], row: usize) -> Tester<'a>
        ensures { TesterOf rows.now row result }
    {
        let answers = array::from_fn(|action| action_meets(rows, row, action as u8));
        Tester { rows, row, answers }
    }

    /// Whether the action meets the tester's row.
    pub fn accepts(&self, action: u8) -> bool
        ensures { result ≡ accepted self.now action }
    {
        self.answers[usize::from(action)]
    }
}

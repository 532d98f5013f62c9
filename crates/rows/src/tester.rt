//! A test of actions with its answers at hand.
ghost use Rattle.std.specs.Prelude.{◌≡◌, ℕ, ◌<◌, false, length, slice_index_or};
ghost use Rattle.rows.specs.Tests.{meets};

use crate::rows::ActionRow;

mod asked;

/// An action row, by number, among rows, and whether each action meets it.
#[derive(Drop)]
pub struct Tester<'a> {
    rows: &'a [ActionRow],
    row: usize,
    answers: [bool; 256],
    ghost long: { length answers ≡ 256 },
    ghost right: { (a : ℕ) → a < 256 → slice_index_or answers a false ≡ meets rows.now row a },
}

//! Rows of actions and formulas, and the tests of actions that they stand for.
#![tactic(auto)]

pub mod fields;
pub mod meeting;
pub mod route;
pub mod rows;
pub mod tester;
#[cfg(test)]
mod tests;
pub mod transition;

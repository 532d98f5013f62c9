//! Columns of verdicts, and the row that is to be labelled.
#![tactic(auto)]

pub mod column;
pub mod connective;
pub mod mark;
pub mod parts;
pub mod quantifier;
pub mod query;
pub mod task;

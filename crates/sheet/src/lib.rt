//! A sheet of rows, the calls on it, and the report of what it found.
#![tactic(auto)]

mod admit;
mod entries;
mod labels;
mod limits;
mod reads;
mod report;
pub mod state;
mod wiped;

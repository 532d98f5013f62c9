//! A machine as a Kripke structure, and one row labelled on it.
#![tactic(auto)]

mod admit;
pub mod label;
pub mod node;
mod perform;
mod span;
pub mod translation;
pub mod unlabelled;

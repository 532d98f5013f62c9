//! Kripke structures, and CTL labelled on any of them.
#![tactic(auto)]

pub mod edge;
pub mod limits;
pub mod next;
mod rounds;
pub mod structure;
pub mod table;
pub mod until;
mod walk;

//! The transitions of a system, counted and gathered.
#![tactic(auto)]

pub mod census;
pub mod gather;
mod sight;
#[cfg(test)]
mod tests;
mod writing;

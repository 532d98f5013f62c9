//! Every refusal of the checker, by layer, and the record that tells one.
#![tactic(auto)]

pub mod fault;
pub mod job;
pub mod sheet;
pub mod system;
#[cfg(test)]
mod tests;

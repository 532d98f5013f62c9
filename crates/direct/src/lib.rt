//! Labels one row of a sheet on any system.
#![tactic(auto)]

pub mod label;
mod labelling;

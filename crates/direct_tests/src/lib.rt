//! Runs the labelling of rows on small systems.
#![tactic(auto)]

#[cfg(test)]
mod tests;

//! Systems over systems: products, hiding, and a system beside its numbers.
#![tactic(auto)]

pub mod hiding;
pub mod kept;
pub mod product;
#[cfg(test)]
mod tests;

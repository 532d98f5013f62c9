//! Tests of the calls on a sheet: each refusal, and the call that is just not refused.
#![tactic(auto)]

#[cfg(test)]
mod tests;

//! Runs CTL on small structures, and rows through the translation.
#![tactic(auto)]

#[cfg(test)]
mod structures;
#[cfg(test)]
mod translated_rows;

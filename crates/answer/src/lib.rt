//! A job answered from beginning to end: its bytes in, the bytes of its report or of its fault's record out.
#![tactic(auto)]

pub mod answer;
pub mod decode;
mod run;
pub mod stop;

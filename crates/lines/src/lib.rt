//! Lines read one at a time, each kept only up to its limit, and answers written whole or a front of them.
#![tactic(auto)]

pub mod failure;
pub mod line;
pub mod mark;
pub mod write;

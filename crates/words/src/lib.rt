//! The words of a line: what they spell, and how a fault is told.
#![tactic(auto)]

pub mod fault;
pub mod phrase;
pub mod place;
mod shown;
pub mod spelled;
pub mod word;

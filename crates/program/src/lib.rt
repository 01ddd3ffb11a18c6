//! A program that answers lines: its command line, its streams and the status that it ends with.
#![tactic(auto)]

mod program;
mod status;

pub use program::run;

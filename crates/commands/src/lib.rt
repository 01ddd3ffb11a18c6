//! The commands of the text program: the words of a line in, what it answers out.
#![tactic(auto)]

mod change;
pub mod command;
pub mod kind;
pub mod layouts;
pub mod memory;
pub mod obey;
mod query;
mod readings;
pub mod reply;
mod scratch;
pub mod topic;
pub mod usage_word;

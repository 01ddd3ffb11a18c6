//! The static library: sixteen calls of the crates below it, over numbers, and structs and slices
//! that are lent. A call that changes a layout works in the caller's struct.
//!
//! A slice crosses as a pointer and a length. The kit has no null pointer in a slice, also with
//! length 0; `bindings/c/strided.h` takes NULL with length 0 and hands over another pointer.
#![tactic(auto)]

mod beside;
pub mod crossing;
mod readings;
mod records;
mod verdicts;
mod views;

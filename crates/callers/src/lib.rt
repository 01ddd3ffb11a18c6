//! Callers to copy: functions of a few lines on any sheets, any lists of calls and any lent memory. Their contracts say in plain
//! facts what the calls are for, and each is proved from what the calls promise.
#![tactic(auto)]

pub mod compare;
pub mod count;
pub mod digits;
pub mod faces;
pub mod keep;
pub mod start;
pub mod steps;
pub mod write;

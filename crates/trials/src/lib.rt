//! Tests of what no contract says: streams that fail or show few bytes, printed texts, and that each call can succeed.
#![tactic(auto)]

#[cfg(test)]
mod calls;
#[cfg(test)]
mod copied;
#[cfg(test)]
mod fakes;
#[cfg(test)]
mod readme;
#[cfg(test)]
mod streams;
#[cfg(test)]
mod texts;
#[cfg(test)]
mod waits;

// Numbers as text spells them in decimal digits, unsigned and signed.
#![tactic(auto)]

pub mod number;

//! What std's integers of 64 bits do not have: the greatest common divisor, arithmetic modulo a number, and a stride
//! times an index.
//!
//! `gcd` is Euclid's: it calls itself on the remainder, which falls. A quotient of 0 or 1, which most are, is taken by a
//! subtraction in place of a division. `modular` never leaves 64 bits: a sum is compared with the modulus before it is
//! taken; a product fits a word if the modulus is at most 2^32, and else costs one doubling for each bit of the
//! smaller factor, 64 at most. `gcd_and_inverse` is Euclid's loop with one coefficient, whose sign turns at every step
//! and whose size is kept apart. `checked_mul` multiplies magnitudes, so -2^63 needs no case of its own.
//!
//! `GcdClaims` says that Euclid's remainders end in the greatest common divisor. Each contract here says its result by
//! that definition, by remainders, or by integers without a bound.
//! docs/WHY.md says what the divisor decides (section 6, two axes) and what the inverse is for (section 7).
#![tactic(auto)]

ghost use Rattle.std.specs.Prelude.{◌≡◌, ◌%◌, ◌<◌};
ghost use Rattle.integer.specs.Gcd.{gcd, GcdClaims};

pub mod modular;
pub mod signed;

// a modulo b. A quotient of 0 or 1, which most of Euclid's are, needs no division.
fn remainder(a: u64, b: u64) -> u64
    requires { 0 < b }
    ensures { result ≡ a % b }
{
    if a < b {
        return a;
    }
    let less = a - b;
    if less < b {
        return less;
    }
    less % b
}

/// The greatest common divisor, by Euclid's remainders.
#[tactic(auto, using(crate::proofs::GcdLaws::euclid))]
pub fn gcd(a: u64, b: u64) -> u64
    ensures { result ≡ gcd a b }
{
    if b == 0 { a } else { gcd(b, remainder(a, b)) }
}

/// Does nothing, and promises that Euclid's remainders end in the greatest common divisor: the check wants the proof.
#[tactic(auto, using(crate::proofs::GcdLaws::gcd_claims))]
pub fn divisors_hold()
    ensures gcd { GcdClaims }
{}

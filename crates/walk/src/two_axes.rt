//! The two axes that are set apart, and which sums some difference of each completes to 0.
ghost use Rattle.std.specs.Prelude.{◌≡◌, ◌↔◌, IsTrue, ◌+◌, ◌-◌, ◌*◌, ◌/◌, ◌%◌, ◌^◌, ◌<◌, ◌≤◌, pos, ◌-ℤ◌};
ghost use Rattle.integer.specs.Congruence.{IsCongruent};
ghost use Rattle.integer.specs.Gcd.{gcd};
ghost use Rattle.specification.specs.Search.{Completes};

use axis::ActiveAxis;
use integer::modular::{GcdInverse, gcd_and_inverse};

/// Two axes, of strides a and b, with what is worked out once for them: g divides both strides, `part` is a / g, `inverse` times a
/// is g modulo b, and `window` is g times the largest difference of the first, which is below b / g.
#[derive(Clone, Copy, Debug, PartialEq, Eq)]
pub struct TwoAxes {
    pub first: ActiveAxis,
    pub second: ActiveAxis,
    pub g: u64,
    pub part: u64,
    pub inverse: u64,
    pub window: u64,
    pub ghost long: { 1 < first.extent },
    pub ghost some: { 0 < second.extent },
    pub ghost above: { 0 < g },
    pub ghost divides_first: { part * g ≡ first.stride },
    pub ghost divides_second: { second.stride / g * g ≡ second.stride },
    pub ghost inverts: { inverse * first.stride % second.stride ≡ g % second.stride },
    pub ghost window_is: { window ≡ g * (first.extent - 1) },
    pub ghost apart: { window < second.stride },
    pub ghost inverse_low: { inverse < second.stride },
    pub ghost second_low: { second.stride < 2 ^ 63 },
}

impl TwoAxes {
    /// The two axes set up for a walk that solves for the first.
    #[tactic(auto, using(crate::proofs::SetUp::divisor_facts))]
    pub fn solved_for(first: ActiveAxis, second: ActiveAxis) -> TwoAxes
        requires long { 1 < first.extent }
        requires some { 0 < second.extent }
        requires moves { 0 < first.stride }
        requires low { second.stride < 2 ^ 63 }
        requires fits { first.extent ≤ second.stride / gcd first.stride second.stride }
        ensures first { result.first ≡ first }
        ensures second { result.second ≡ second }
    {
        let GcdInverse { gcd: g, inverse } = gcd_and_inverse(first.stride, second.stride);
        TwoAxes {
            first,
            second,
            g,
            part: first.stride / g,
            inverse,
            window: g * (first.extent - 1),
        }
    }
}

// Whether k is within the window, and up and down + k * part are at most `span` apart.
fn near(two: TwoAxes, up: u64, down: u64, k: u64, span: u64) -> bool
    requires { two.window * two.part + (span + (up + down)) < 2 ^ 64 }
    ensures { IsTrue result ↔ (k ≤ two.window) × (up ≤ down + k * two.part + span) × (down + k * two.part ≤ up + span) }
{
    k <= two.window && up.abs_diff(down + k * two.part) <= span
}

// Whether some difference of each completes up - down to 0, if k is up - down times the inverse modulo b. That of the first is
// -k / g or (b - k) / g: no other one within its reach leaves a multiple of b, which the second has if it is within its span.
#[tactic(auto, using(crate::proofs::Completing::window_part))]
pub(crate) fn completes(two: TwoAxes, up: u64, down: u64, k: u64) -> bool
    requires low { k < two.second.stride }
    requires residue { IsCongruent two.second.stride (k + down * two.inverse) (up * two.inverse) }
    requires divides { IsCongruent two.g up down }
    requires fits { (two.first.extent - 1) * two.first.stride + ((two.second.extent - 1) * two.second.stride + (up + down)) < 2 ^ 64 }
    ensures { IsTrue result ↔ Completes two.first two.second (pos up -ℤ pos down) }
{
    let span = (two.second.extent - 1) * two.second.stride;
    near(two, up, down, k, span) || near(two, down, up, two.second.stride - k, span)
}

//! The axes whose differences are walked over, each with its digit, and the residues of their sum that go along.
ghost use Rattle.std.specs.Prelude.{◌↔◌, IsTrue, ◌≡◌, ◌+◌, ◌-◌, ◌*◌, ◌%◌, ◌^◌, ◌<◌, All};
ghost use Rattle.integer.specs.Congruence.{IsCongruent};
ghost use Rattle.specification.specs.Search.{box, difference_at, difference_sum, Completes};
ghost use Rattle.differences.specs.AxisDifferences.{number_of};
ghost use Rattle.walk.specs.Underway.{IsStep, IsFit, IsCountable, vector_of, others_of, sum_above, sum_below, Stands};

use crate::two_axes::{TwoAxes, completes};
use axis::ActiveAxis;
use integer::modular::{add_mod, mul_mod, neg_mod};

// A sum of differences: of those above 0, and of those below without their sign.
#[derive(Clone, Copy)]
struct Sums {
    up: u64,
    down: u64,
}

// The residues of a sum of differences that go along with the walk: z of its product with the inverse, moved up by the window,
// modulo b; q of the sum itself modulo g.
#[derive(Clone, Copy)]
pub struct Residues {
    pub z: u64,
    pub q: u64,
}

// What a step of an axis's digit adds to a residue: up, and from the last digit back to 0.
#[derive(Clone, Copy)]
pub struct Step {
    pub up: u64,
    pub back: u64,
}

impl Step {
    const NONE: Step = Step { up: 0, back: 0 };

    // The step of a residue of the sum times `factor`, modulo m.
    fn of(axis: ActiveAxis, factor: u64, m: u64) -> Step
        requires low { factor < m }
        requires some { 0 < axis.extent }
        ensures { IsStep m factor axis result }
    {
        let up = mul_mod(axis.stride % m, factor, m);
        let half = mul_mod((axis.extent - 1) % m, up, m);
        Step {
            up,
            back: neg_mod(add_mod(half, half, m), m),
        }
    }
}

// An axis with its digit, which is the difference + extent - 1, and the steps of both residues.
#[derive(Clone, Copy)]
pub struct DifferenceAxis {
    pub axis: ActiveAxis,
    pub digit: u64,
    pub z: Step,
    pub q: Step,
}

impl DifferenceAxis {
    pub const NONE: DifferenceAxis = DifferenceAxis {
        axis: ActiveAxis::NONE,
        digit: 0,
        z: Step::NONE,
        q: Step::NONE,
    };

    // The axis at the digit of no difference.
    pub fn at_middle(two: TwoAxes, axis: ActiveAxis) -> DifferenceAxis
        requires { IsCountable axis }
        ensures axis { result.axis ≡ axis }
        ensures middle { result.digit ≡ axis.extent - 1 }
        ensures fit { IsFit two result }
    {
        DifferenceAxis {
            axis,
            digit: axis.extent - 1,
            z: Step::of(axis, two.inverse, two.second.stride),
            q: Step::of(axis, 1 % two.g, two.g),
        }
    }
}

// One vector on: the first axis's digit goes up, or goes round and leaves it to the next axis.
pub fn turn(two: TwoAxes, axes: &mut [DifferenceAxis], residues: Residues) -> Residues
    requires stands { Stands two axes.old residues }
    requires more { number_of (vector_of axes.old) + 1 < box (others_of axes.old) }
    ensures stands { Stands two axes.new result }
    ensures others { others_of axes.new ≡ others_of axes.old }
    ensures on { number_of (vector_of axes.new) ≡ number_of (vector_of axes.old) + 1 }
{
    let (b, g) = (two.second.stride, two.g);
    let Residues { mut z, mut q } = residues;
    for axis in axes.iter_mut() {
        let middle = axis.axis.extent - 1;
        if axis.digit < middle + middle {
            axis.digit += 1;
            return Residues {
                z: add_mod(z, axis.z.up, b),
                q: add_mod(q, axis.q.up, g),
            };
        }
        axis.digit = 0;
        z = add_mod(z, axis.z.back, b);
        q = add_mod(q, axis.q.back, g);
    }
    Residues { z, q }
}

// The sum of differences in its two parts. Few vectors ask for it, so it stays out of the walk's loop, which then has the registers.
#[inline(never)]
fn parts_of(axes: &[DifferenceAxis]) -> Sums
    requires some { All (λ d. 0 < d.axis.extent) axes.now }
    requires fits { sum_above axes.now + sum_below axes.now < 2 ^ 64 }
    ensures up { result.up ≡ sum_above axes.now }
    ensures down { result.down ≡ sum_below axes.now }
{
    let mut up: u64 = 0;
    let mut down: u64 = 0;
    for axis in axes {
        let middle = axis.axis.extent - 1;
        if axis.digit >= middle {
            up += (axis.digit - middle) * axis.axis.stride;
        } else {
            down += (middle - axis.digit) * axis.axis.stride;
        }
    }
    Sums { up, down }
}

// Whether some difference of the two completes the vector where the axes stand. Either residue alone can say no.
pub fn is_completed(two: TwoAxes, axes: &[DifferenceAxis], residues: Residues) -> bool
    requires { Stands two axes.now residues }
    ensures { let others = others_of axes.now in
        IsTrue result ↔ Completes two.first two.second (difference_sum others (difference_at others (number_of (vector_of axes.now)))) }
{
    let Residues { z, q } = residues;
    if z > 2 * two.window || q > 0 {
        return false;
    }
    let Sums { up, down } = parts_of(axes);
    let b = two.second.stride;
    completes(two, up, down, add_mod(z, b - two.window, b))
}

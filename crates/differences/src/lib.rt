//! Which numbers are distances of active axes: the sum of a difference vector without its sign.
//!
//! The enumeration asks it: two positions of a block have one sum exactly if 0 is a distance of its axes, other than of the
//! zero vector. A vector and its opposite have one distance, so a walk takes the vectors above the zero vector, in the order of
//! their numbers. A block cut in two is asked by its parts: 0 is a distance of one, or some number is a distance of both. That
//! takes as many vectors as the parts have, and not as many as their product.
//!
//! A step changes the difference of the first axis alone, until that goes around: one addition for most vectors. The sum is kept
//! in two parts, above 0 and below, which fit a word if the span does; the distance is how far they are apart.
//!
//! That a walk tells each distance is the contract of `Differences::next`; that parts may be asked for the whole is the law
//! `meets-same` in proofs/Meeting.antt, and `Meets` of specs/Differences.antt says what is asked. docs/WHY.md, "Enumeration",
//! explains it.
#![tactic(auto)]

pub mod boxes;

ghost use Rattle.std.specs.Prelude.{◌≡◌, ◌+◌, ◌-◌, ◌*◌, ◌<◌, length, IfSome, IfNone, IsTrue, IsFalse};
ghost use Rattle.specification.specs.Search.{box, half};
ghost use Rattle.differences.specs.Differences.{IsWalkable, distance_at};
ghost use Rattle.differences.specs.AxisDifferences.{axes_of, number_of, digit_of, IsSmall, IsWithin, Stands};

use axis::ActiveAxis;
use std::marker::Model;

/// A difference of two indices of an axis, in two parts: it is `above` less `below`.
#[derive(Clone, Copy, Debug, PartialEq, Eq)]
pub struct AxisDifference {
    /// The axis, whose extent is above both parts.
    pub axis: ActiveAxis,
    /// The part above 0.
    pub above: u64,
    /// The part below 0, without its sign.
    pub below: u64,
}

impl AxisDifference {
    const NONE: AxisDifference = AxisDifference {
        axis: ActiveAxis::NONE,
        above: 0,
        below: 0,
    };

    // On to the next difference, with the sums that it is in. After the last comes the first, and the answer is false.
    #[tactic(auto, using(std::proofs::lemmas::Nat::rows))]
    fn step(&mut self, sums: &mut Sums) -> bool
        requires within { IsWithin self.old sums.old }
        ensures small { IsSmall self.new }
        ensures axis { self.new.axis ≡ self.old.axis }
        ensures on { IsTrue result → digit_of self.new ≡ digit_of self.old + 1 }
        ensures last { IsFalse result → (digit_of self.new ≡ 0) × (digit_of self.old + 1 ≡ 2 * self.old.axis.extent - 1) }
        ensures up { sums.new.up + self.old.above * self.old.axis.stride ≡ sums.old.up + self.new.above * self.old.axis.stride }
        ensures down { sums.new.down + self.old.below * self.old.axis.stride ≡ sums.old.down + self.new.below * self.old.axis.stride }
    {
        let ActiveAxis { extent, stride, .. } = self.axis;
        if self.below > 0 {
            self.below -= 1;
            sums.down -= stride;
            return true;
        }
        let last = extent - 1;
        if self.above < last {
            self.above += 1;
            sums.up += stride;
            return true;
        }
        self.above = 0;
        self.below = last;
        let back = stride * last;
        sums.up -= back;
        sums.down += back;
        false
    }
}

// The sum of the parts above 0, each times its stride, and that of the parts below. Both fit a word if the span does.
#[derive(Clone, Copy)]
struct Sums {
    up: u64,
    down: u64,
}

// On to the next vector, the first axis fastest. After the last comes the first, and the answer is false.
#[tactic(auto, using(crate::proofs::Advancing::turns), unfolding(specification::specs::Axis::product))]
fn advance(differences: &mut [AxisDifference], sums: &mut Sums) -> bool
    requires stands { Stands differences.old sums.old }
    ensures stands { Stands differences.new sums.new }
    ensures axes { axes_of differences.new ≡ axes_of differences.old }
    ensures on { IsTrue result → number_of differences.new ≡ number_of differences.old + 1 }
    ensures last { IsFalse result → (number_of differences.new ≡ 0) × (number_of differences.old + 1 ≡ box (axes_of differences.old)) }
{
    for difference in differences.iter_mut() {
        if difference.step(sums) {
            return true;
        }
    }
    false
}

/// A walk over the difference vectors of axes, from the zero vector on.
#[derive(Drop)]
pub struct Differences {
    axes: [AxisDifference; 16],
    len: usize,
    sums: Sums,
}

impl Model for Differences {
    ghost use Rattle.differences.specs.Differences.{DifferencesAt};

    ghost Value = { DifferencesAt };

    ghost use Rattle.differences.specs.Sound.{view_of, IsSound};

    ghost view = { view_of };

    ghost invariant = { IsSound };
}

impl Differences {
    /// The walk at the zero vector.
    pub fn new(axes: &[ActiveAxis]) -> Differences
        requires { IsWalkable axes.now }
        ensures { result ≡ record { axes = axes.now; number = half axes.now } }
    {
        let mut differences = [AxisDifference::NONE; 16];
        for (j, &axis) in axes.iter().enumerate() {
            differences[j] = AxisDifference {
                axis,
                ..AxisDifference::NONE
            };
        }
        Differences {
            axes: differences,
            len: axes.len(),
            sums: Sums { up: 0, down: 0 },
        }
    }

    /// On to the next vector, and its distance. `None` after the last: the walk is at the first then.
    #[tactic(auto, using(crate::proofs::Advancing::next))]
    pub fn next(&mut self) -> Option<u64>
        ensures axes { self.new.axes ≡ self.old.axes }
        ensures within { self.new.number < box self.new.axes }
        ensures on { IfSome result (λ _. self.new.number ≡ self.old.number + 1) }
        ensures distance { IfSome result (λ distance. distance ≡ distance_at self.new.axes self.new.number) }
        ensures last { IfNone result ((self.new.number ≡ 0) × (self.old.number + 1 ≡ box self.old.axes)) }
    {
        let (len, mut sums) = (self.len, self.sums);
        let more = advance(&mut self.axes[..len], &mut sums);
        self.sums = sums;
        if !more {
            return None;
        }
        Some(sums.up.abs_diff(sums.down))
    }
}

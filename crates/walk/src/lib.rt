//! Which is the first difference vector of some axes, in their order, whose sum two axes set apart bring to 0?
//!
//! The others are walked like an odometer, `DifferenceAxis` by `DifferenceAxis`, from the vector of no difference on. At each vector,
//! of sum r, x and y in reach are asked for with x times A + y times B + r = 0. Modulo B the first axis can be solved for: g, the
//! greatest common divisor of A and B, times x is -r times an inverse, so at most two x are in reach, and y is what they leave.
//!
//! Two residues of r go along: that of r times the inverse, moved up by the window, and that of r modulo g. Either alone rules
//! most vectors out, so a vector costs two additions and a comparison, and a step over an axis end two more. No sum is kept: it
//! is added up from the digits if neither residue rules the vector out.
//!
//! `Walk::run_to` says that it is right: what it finds is the definitions' `first_of` of `hit`, and where it stands is as many
//! vectors on. A walk can be gone on with. docs/WHY.md explains it in section 7.
#![tactic(auto)]

mod difference_axis;
mod two_axes;

ghost use Rattle.std.specs.Prelude.{◌≡◌, ◌+◌, ◌-◌, ◌^◌, ◌<◌, ◌≤◌, [], ◌∷◌, suc, length, unwrap_or, All};
ghost use Rattle.specification.specs.Search.{half, span_sum, first_of};
ghost use Rattle.specification.specs.Verdict.{hit};
ghost use Rattle.walk.specs.Underway.{IsCountable};
ghost use Rattle.walk.specs.WalkAt.{At, walk_at};

use crate::difference_axis::{DifferenceAxis, Residues, is_completed, turn};
pub use crate::two_axes::TwoAxes;
use axis::ActiveAxis;
use std::marker::Model;

// How many vectors were looked at, and the residues of the one where the walk stands.
#[derive(Clone, Copy)]
struct Place {
    count: u64,
    residues: Residues,
}

// `Walk::run_to` over axes that are lent; the residues stay in locals on the way.
#[tactic(auto, unfolding(specification::specs::Search::first_of))]
fn run(two: TwoAxes, axes: &mut [DifferenceAxis], place: &mut Place, stop: u64) -> Option<u64>
    requires stands { At two axes.old place.old }
    requires from { place.old.count ≤ stop }
    requires to { stop ≤ half (walk_at two axes.old place.old).others }
    ensures at { At two axes.new place.new }
    ensures stands { walk_at two axes.new place.new ≡ record (walk_at two axes.old place.old) { count = unwrap_or result stop } }
    ensures found { let walk = walk_at two axes.old place.old in
        result ≡ first_of (hit walk.first walk.second walk.others) (stop - walk.count) (suc walk.count) }
{
    let Place {
        mut count,
        mut residues,
    } = *place;
    while count < stop {
        residues = turn(two, axes, residues);
        count += 1;
        if is_completed(two, axes, residues) {
            *place = Place { count, residues };
            return Some(count);
        }
    }
    *place = Place { count, residues };
    None
}

/// The walk over the difference vectors of the others, from the one of no difference on. It can be gone on with.
#[derive(Drop)]
pub struct Walk {
    two: TwoAxes,
    axes: [DifferenceAxis; 16],
    len: usize,
    place: Place,
}

impl Model for Walk {
    ghost use Rattle.walk.specs.WalkAt.{WalkAt};

    ghost Value = { WalkAt };

    ghost use Rattle.walk.specs.Sound.{view_of, IsSound};

    ghost view = { view_of };

    ghost invariant = { IsSound };
}

impl Walk {
    /// The walk at the vector of no difference, over these axes.
    pub fn new(two: TwoAxes, others: &[ActiveAxis]) -> Walk
        requires few { length others.now ≤ 16 }
        requires countable { All IsCountable others.now }
        requires fits { span_sum (two.first ∷ two.second ∷ others.now) < 2 ^ 64 }
        ensures { result ≡ record { first = two.first; second = two.second; others = others.now; count = 0 } }
    {
        let mut axes = [DifferenceAxis::NONE; 16];
        for (j, &axis) in others.iter().enumerate() {
            axes[j] = DifferenceAxis::at_middle(two, axis);
        }
        Walk {
            two,
            axes,
            len: others.len(),
            place: Place {
                count: 0,
                residues: Residues {
                    z: two.window,
                    q: 0,
                },
            },
        }
    }

    /// One vector on. Its place is counted in a word.
    pub(crate) fn advance(&mut self)
        requires more { self.old.count < half self.old.others }
        requires counted { self.old.count + 1 < 2 ^ 64 }
        ensures { self.new ≡ record self.old { count = self.old.count + 1 } }
    {
        let (two, len, Place { count, residues }) = (self.two, self.len, self.place);
        let residues = turn(two, &mut self.axes[..len], residues);
        self.place = Place {
            count: count + 1,
            residues,
        };
    }

    /// Whether some difference of the two completes the vector where the walk stands.
    pub(crate) fn is_completed(&self) -> bool
        ensures { result ≡ hit self.now.first self.now.second self.now.others self.now.count }
    {
        is_completed(self.two, &self.axes[..self.len], self.place.residues)
    }

    /// On to the first vector that is completed, and its place; or to `stop` vectors. From there it can go on.
    pub fn run_to(&mut self, stop: u64) -> Option<u64>
        requires from { self.old.count ≤ stop }
        requires to { stop ≤ half self.old.others }
        ensures found { result ≡ first_of (hit self.old.first self.old.second self.old.others) (stop - self.old.count) (suc self.old.count) }
        ensures stands { self.new ≡ record self.old { count = unwrap_or result stop } }
    {
        let (two, len, mut place) = (self.two, self.len, self.place);
        let found = run(two, &mut self.axes[..len], &mut place, stop);
        self.place = place;
        found
    }
}

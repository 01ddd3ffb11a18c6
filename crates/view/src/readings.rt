//! What a call on readings asks of its layouts, and of the buffers that it is lent.
ghost use Rattle.std.specs.Prelude.{◌≡◌, ◌≤◌, OnOk};
ghost use Rattle.view.specs.Answers.{outcome_by};
ghost use Rattle.view.specs.Model.{model_of};
ghost use Rattle.view.specs.Reach.{ends_of};
ghost use Rattle.view.specs.Readings.{both_ends, reach_of_both, is_past};

use crate::bounds::Reach;
use crate::layout::{Layout, MOST_AXES, Refusal};

impl Reach {
    /// Whether the highest offset is past the end of a buffer of so many readings. If there is no position, it is not.
    pub fn is_past(self, readings: usize) -> bool
        ensures { result ≡ is_past (ends_of self) readings }
    {
        match self {
            Reach::Empty => false,
            Reach::Between(_, high) => readings as u64 <= high.0.max(0).unsigned_abs(),
        }
    }
}

/// The reach of two layouts; or refusal 1 if either has more than 16 axes, then 3 if either has an offset that is not accepted.
#[tactic(auto, using(crate::proofs::ReadingLaws::first_many, crate::proofs::ReadingLaws::second_many, crate::proofs::ReadingLaws::first_out, crate::proofs::ReadingLaws::second_out, crate::proofs::ReadingLaws::both_done))]
pub fn reach_both(first: &Layout, second: &Layout) -> Result<(Reach, Reach), Refusal>
    ensures reach { outcome_by both_ends result ≡ reach_of_both (model_of first.now) (model_of second.now) }
    ensures few { OnOk result ((first.now.rank ≤ 16) × (second.now.rank ≤ 16)) }
{
    if MOST_AXES < first.rank || MOST_AXES < second.rank {
        return Err(Refusal::TooManyAxes);
    }
    Ok((first.reach()?, second.reach()?))
}

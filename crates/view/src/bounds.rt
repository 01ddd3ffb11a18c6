//! How far the offsets of a layout reach, check-in's refusal 3, and the refusals 1 and 3 of a layout that is handed in.
ghost use Rattle.std.specs.Prelude.{◌≡◌, ◌≤◌, length, OnOk};
ghost use Rattle.specification.specs.CheckIn.{bounds, check_in};
ghost use Rattle.specification.specs.Layout.{is_in_reach, handed};
ghost use Rattle.view.specs.Answers.{outcome_of, outcome_by, answer_of};
ghost use Rattle.view.specs.Model.{model_of};
ghost use Rattle.view.specs.Reach.{candidate_model, spans_up_to, spans_within, ends_told, ends_within, within, in_bounds, ends_of, reach_of};

use crate::axes::{Axes, Lists};
use crate::bounded::bounded_product;
use crate::count::{Extent, has_no_position};
use crate::layout::{Layout, MOST_AXES, ReadingOffset, Refusal};
use axis::Axis;

/// How far the offsets of a layout reach.
#[derive(Clone, Copy, Debug, PartialEq, Eq)]
pub enum Reach {
    /// There is no position.
    Empty,
    /// The lowest and the highest.
    Between(ReadingOffset, ReadingOffset),
}

/// Two sums, in readings: of the positive spans, and of the negative ones without their sign.
#[derive(Clone, Copy, Debug, PartialEq, Eq)]
pub struct Spans {
    /// Of the spans above 0, in readings.
    pub up: u64,
    /// Of the spans below 0, in readings.
    pub down: u64,
}

/// The sums of the positive and of the negative spans, if each is at most its limit.
pub fn sum_spans<A: Axes>(axes: A, above: u64, below: u64) -> Option<Spans>
    ensures { result ≡ spans_up_to above below (A.axes_of axes) }
{
    spans_within(axes, above, below, true)
}

/// As `sum_spans`; if wide extents do not pass, no extent minus 1 is above 2^63 - 1 either.
fn spans_within<A: Axes>(axes: A, above: u64, below: u64, wide_passes: bool) -> Option<Spans>
    ensures { result ≡ spans_within wide_passes above below (A.axes_of axes) }
{
    // what the spans so far leave of the limits
    let mut up = above;
    let mut down = below;
    for (place, entry) in axes.entries().iter().enumerate() {
        let last = entry.extent().saturating_sub(1);
        if !wide_passes && last > i64::MAX as u64 {
            return None;
        }
        let stride = axes.stride(place);
        if stride < 0 {
            down -= bounded_product(last, stride.unsigned_abs(), down)?;
        } else {
            up -= bounded_product(last, stride.unsigned_abs(), up)?;
        }
    }
    Some(Spans {
        up: above - up,
        down: below - down,
    })
}

/// A layout that is tested before anything is stored: its axes may still stand in two lists.
#[derive(Clone, Copy)]
pub struct Candidate<A> {
    /// How many readings the buffer holds.
    pub len: u64,
    /// Where the reading stands whose indices are all 0.
    pub offset: ReadingOffset,
    /// Its axes, in their order.
    pub axes: A,
}

impl<A: Axes> Candidate<A> {
    /// The lowest and the highest offset (a zero extent counts as 1), if both are accepted; and no extent is wide, unless
    /// wide ones pass.
    fn accepted_ends(&self, wide_passes: bool) -> Option<(ReadingOffset, ReadingOffset)>
        ensures { ends_told result
            ≡ ends_within wide_passes (candidate_model A.axes_of self.now) }
    {
        if self.offset.0 < 0 {
            return None;
        }
        let base = self.offset.0.unsigned_abs();
        let spans = spans_within(self.axes, i64::MAX as u64 - base, base, wide_passes)?;
        let high = base + spans.up;
        if self.len <= high {
            return None;
        }
        Some((
            ReadingOffset((base - spans.down) as i64),
            ReadingOffset(high as i64),
        ))
    }

    /// Whether both ends are accepted.
    fn is_within(&self) -> bool
        ensures { result ≡ within (candidate_model A.axes_of self.now) }
    {
        self.accepted_ends(true).is_some()
    }

    /// Whether no offset is outside: the layout is accepted, whose rank is tested apart.
    #[tactic(auto, using(crate::proofs::BoundsLaws::reach_within, crate::proofs::BoundsLaws::reach_beyond))]
    fn is_in_reach(&self) -> bool
        ensures { result ≡ is_in_reach (candidate_model A.axes_of self.now) }
    {
        self.is_within() || has_no_position(self.axes.entries())
    }

    // Both are inlined: a candidate then never stands in memory.

    /// Whether check-in lets pass: if the offsets are within, each span fits, so only a wide extent is left to test.
    #[inline(always)]
    fn is_in_bounds(&self) -> bool
        ensures { result ≡ in_bounds (candidate_model A.axes_of self.now) }
    {
        self.accepted_ends(false).is_some() || has_no_position(self.axes.entries())
    }

    /// Check-in's refusal 3: an offset outside 0 to 2^63 - 1 or not below the length, or a wide extent, if no extent is 0.
    #[inline(always)]
    #[tactic(auto, using(crate::proofs::BoundsLaws::bounds_passed, crate::proofs::BoundsLaws::bounds_refused))]
    pub fn bounds_refusal(&self) -> Result<(), Refusal>
        ensures { outcome_of result ≡ bounds (candidate_model A.axes_of self.now) }
    {
        if self.is_in_bounds() {
            Ok(())
        } else {
            Err(Refusal::OutOfRange)
        }
    }
}

/// Check-in without the layout: refusals 1 and 2, then 3.
#[tactic(auto, using(crate::proofs::CheckInLaws::lists_refused, crate::proofs::CheckInLaws::bounds_answered))]
pub fn validate_bounds(
    len: u64,
    offset: ReadingOffset,
    extents: &[u64],
    strides: &[i64],
) -> Result<(), Refusal>
    ensures answer { outcome_of result ≡ answer_of (check_in len offset.0 extents.now strides.now) }
    ensures few { OnOk result (length extents.now ≤ 16) }
    ensures alike { OnOk result (length strides.now ≡ length extents.now) }
{
    let axes = Lists::new(extents, strides)?;
    Candidate { len, offset, axes }.bounds_refusal()
}

impl Layout {
    /// Itself, to be tested.
    fn candidate(&self) -> Candidate<&[Axis]>
        requires { self.now.rank ≤ 16 }
        ensures { candidate_model (λ axes. axes.now) result ≡ model_of self.now }
    {
        Candidate {
            len: self.len,
            offset: self.offset,
            axes: self.few_axes(),
        }
    }

    /// The reach of a layout; or refusal 1 for more than 16 axes, 3 for an offset that is not accepted.
    #[tactic(auto, using(crate::proofs::HandedLaws::reach_many, crate::proofs::HandedLaws::reach_empty, crate::proofs::HandedLaws::reach_outside, crate::proofs::HandedLaws::reach_between))]
    pub fn reach(&self) -> Result<Reach, Refusal>
        ensures { outcome_by ends_of result ≡ reach_of (model_of self.now) }
    {
        if MOST_AXES < self.rank {
            return Err(Refusal::TooManyAxes);
        }
        let candidate = self.candidate();
        if has_no_position(candidate.axes) {
            return Ok(Reach::Empty);
        }
        match candidate.accepted_ends(true) {
            None => Err(Refusal::OutOfRange),
            Some((low, high)) => Ok(Reach::Between(low, high)),
        }
    }

    /// Refusal 1 for more than 16 axes or entries of the call's list (0 for a call that takes none), 3 for an offset that is not
    /// accepted.
    #[inline(always)]
    #[tactic(auto, unfolding(specification::specs::Outcome::refuse_if), using(crate::proofs::HandedLaws::many_axes, crate::proofs::HandedLaws::many_entries, crate::proofs::HandedLaws::handed_few))]
    pub fn handed_refusal(&self, entries: usize) -> Result<(), Refusal>
        ensures answer { outcome_of result ≡ handed (model_of self.now) entries }
        ensures few_axes { OnOk result (self.now.rank ≤ 16) }
        ensures few_entries { OnOk result (entries ≤ 16) }
    {
        if MOST_AXES < self.rank || MOST_AXES < entries {
            return Err(Refusal::TooManyAxes);
        }
        if self.candidate().is_in_reach() {
            Ok(())
        } else {
            Err(Refusal::OutOfRange)
        }
    }
}

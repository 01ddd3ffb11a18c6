//! A layout, what a view of it answers, and why a call is refused.
ghost use Rattle.std.specs.Prelude.{◌≡◌, ◌≤◌, length, min, take, drop, OnErr};
ghost use Rattle.specification.specs.CheckIn.{check_in};
ghost use Rattle.view.specs.Answers.{number_of, values_of, listed};
ghost use Rattle.view.specs.Model.{model_of, told, accepted_of, layout_outcome, checked_into};

use crate::axes::Lists;
use crate::bounds::Candidate;
use crate::values::Values;
use axis::Axis;
use thiserror::Error;

/// The most axes of a layout.
pub const MOST_AXES: usize = 16;

/// An offset counted in readings.
#[repr(C)]
#[derive(Clone, Copy, Debug, PartialEq, Eq, PartialOrd, Ord)]
pub struct ReadingOffset(pub i64);

/// Where readings stand in a buffer. Only the first `rank` places of `axes` count; the others may hold anything. Whoever makes one
/// may set any rank.
#[repr(C)]
#[derive(Clone, Copy, Debug)]
pub struct Layout {
    /// How many readings the buffer holds.
    pub len: u64,
    /// Where the reading stands whose indices are all 0.
    pub offset: ReadingOffset,
    /// How many axes there are; each call refuses more than 16.
    pub rank: usize,
    /// The axes in the first places.
    pub axes: [Axis; 16],
}

/// The layout after a view, or as it was beside the refusal.
#[derive(Clone, Copy, Debug)]
pub struct Viewed {
    /// The layout after the view, or the one before it.
    pub layout: Layout,
    /// Whether the view was made, or why not.
    pub answer: Result<(), Refusal>,
}

/// Why a call is refused, with the values that are returned (RULES, "Refusals, and which comes first").
#[derive(Clone, Copy, Debug, PartialEq, Eq, Error)]
pub enum Refusal {
    /// 1: more than 16 entries in a list of axes, or more than 16 axes in a layout.
    #[error("more than 16 axes or entries")]
    TooManyAxes,
    /// 2: extents and strides, or strides and an output, are not of one length.
    #[error("the lists differ in length")]
    LengthsDiffer,
    /// 3: an offset is not accepted, or a stride, a span or a sum leaves its range.
    #[error("an offset would lie outside the buffer, or a number does not fit 64 bits")]
    OutOfRange,
    /// 4: a list has not one entry an axis; both lengths, in the order that the call says.
    #[error("a list and the axes of the layout differ in number: {0} and {1}")]
    WrongLength(usize, usize),
    /// 5: the axis, and the rank.
    #[error("axis {0} is outside the rank {1}, or named twice")]
    BadAxis(usize, usize),
    /// 6: the first such axis.
    #[error("the extent of axis {0} is neither its target nor 1")]
    BadExtent(usize),
    /// 7: the first such axis.
    #[error("the index of axis {0} is not below its extent")]
    BadIndex(usize),
    /// 8: no extent is 0, and 64 bits do not hold the number of positions.
    #[error("more than 2^64 - 1 positions")]
    TooManyPositions,
    /// 9: how many words of 64 bits are needed.
    #[error("{0} words of scratch are needed")]
    ShortScratch(usize),
    /// 10: how much output is needed, in what the call counts: bytes of a record, or readings of means.
    #[error("an output of {0} is needed, in bytes of a record or in readings of means")]
    ShortOutput(usize),
    /// 11: no whole record stands at the front, or its verdict is false.
    #[error("the bytes are not a record")]
    NotARecord,
    /// 12: the extents of one layout, in their order, are not those of the other.
    #[error("the two layouts differ in extents")]
    ExtentsDiffer,
    /// 13: a buffer that is lent ends at or before the highest offset of its layout.
    #[error("a buffer is shorter than its layout needs")]
    ShortReadings,
    /// 14: the verdict on the destination is repeated or undecided.
    #[error("the verdict on the destination is not distinct")]
    NotDistinct,
    /// 15: the axis that means are taken along has extent 0.
    #[error("the extent along the axis is 0")]
    EmptyAxis,
    /// 16: the axis that means are taken along has an extent above 65,536.
    #[error("the extent along the axis is above 65536")]
    LongAxis,
}

impl Viewed {
    /// The layout, or why it is as it was: for `?`.
    pub fn accepted(self) -> Result<Layout, Refusal>
        ensures { result ≡ accepted_of self }
    {
        self.answer.map(|()| self.layout)
    }
}

impl Refusal {
    /// Its number, and the values returned with it. A new refusal has its line here and one above.
    fn row(self) -> (u8, Values)
        ensures number { result.0 ≡ number_of self }
        ensures values { listed result.1 ≡ values_of self }
    {
        match self {
            Refusal::TooManyAxes => (1, Values::none()),
            Refusal::LengthsDiffer => (2, Values::none()),
            Refusal::OutOfRange => (3, Values::none()),
            Refusal::WrongLength(first, second) => (4, Values::two(first, second)),
            Refusal::BadAxis(axis, rank) => (5, Values::two(axis, rank)),
            Refusal::BadExtent(axis) => (6, Values::one(axis)),
            Refusal::BadIndex(axis) => (7, Values::one(axis)),
            Refusal::TooManyPositions => (8, Values::none()),
            Refusal::ShortScratch(words) => (9, Values::one(words)),
            Refusal::ShortOutput(needed) => (10, Values::one(needed)),
            Refusal::NotARecord => (11, Values::none()),
            Refusal::ExtentsDiffer => (12, Values::none()),
            Refusal::ShortReadings => (13, Values::none()),
            Refusal::NotDistinct => (14, Values::none()),
            Refusal::EmptyAxis => (15, Values::none()),
            Refusal::LongAxis => (16, Values::none()),
        }
    }

    /// Its number.
    pub fn number(self) -> u8
        ensures { result ≡ number_of self }
    {
        self.row().0
    }

    /// The values returned with it: lengths, axes, words or how much output, as its variant says.
    pub fn values(self) -> Values
        ensures { listed result ≡ values_of self }
    {
        self.row().1
    }
}

impl Layout {
    /// As many axes as the rank says; of a rank above 16 the sixteen that there are.
    #[tactic(auto, using(crate::proofs::AxesLaws::first_axes_take, crate::proofs::AxesLaws::first_sixteen))]
    pub fn axes(&self) -> &[Axis]
        ensures meaning { result.now ≡ take 16 (model_of self.now).axes }
        ensures all { self.now.rank ≤ 16 → result.now ≡ (model_of self.now).axes }
        ensures count { length result.now ≡ min 16 self.now.rank }
    {
        &self.axes[..MOST_AXES.min(self.rank)]
    }

    /// As many axes as the rank says. Who calls it knows that they are at most 16, so it makes no test.
    #[tactic(auto, using(crate::proofs::AxesLaws::first_axes_take))]
    pub(crate) fn few_axes(&self) -> &[Axis]
        requires { self.now.rank ≤ 16 }
        ensures meaning { result.now ≡ (model_of self.now).axes }
        ensures count { length result.now ≡ self.now.rank }
    {
        &self.axes[..self.rank]
    }

    /// Check-in: refusal 1 for more than 16 entries in a list, 2 for lists that differ in length, 3 for bounds; or the layout.
    pub fn new(
        len: u64,
        offset: ReadingOffset,
        extents: &[u64],
        strides: &[i64],
    ) -> Result<Self, Refusal>
        ensures { layout_outcome result ≡ check_in len offset.0 extents.now strides.now }
    {
        let mut layout = Layout {
            len: 0,
            offset: ReadingOffset(0),
            rank: 0,
            axes: [Axis::NONE; 16],
        };
        layout.check_in(len, offset, extents, strides)?;
        Ok(layout)
    }

    /// Check-in into a layout that is there: refusals 1, 2, 3 and the layout as it was, or the one checked in; places past its rank
    /// stay.
    #[tactic(auto, using(crate::proofs::CheckInLaws::told_unpaired, crate::proofs::CheckInLaws::told_outside))]
    pub fn check_in(
        &mut self,
        len: u64,
        offset: ReadingOffset,
        extents: &[u64],
        strides: &[i64],
    ) -> Result<(), Refusal>
        ensures told { told result self.new
            ≡ checked_into (model_of self.old) (check_in len offset.0 extents.now strides.now) }
        ensures kept { OnErr result (self.new ≡ self.old) }
        ensures past { drop self.new.rank self.new.axes ≡ drop self.new.rank self.old.axes }
    {
        let axes = Lists::new(extents, strides)?;
        Candidate { len, offset, axes }.bounds_refusal()?;
        axes.store(&mut self.axes);
        self.len = len;
        self.offset = offset;
        self.rank = extents.len();
        Ok(())
    }
}

//! Axes as they are handed in: side by side, or as a list of extents and a list of strides.
ghost use Rattle.std.specs.Prelude.{◌≡◌, ◌≤◌, ◌<◌, List, ◌++◌, drop, length, pos, slice_index_or, IfOk};
ghost use Rattle.specification.specs.Axis.{Axis as AxisModel, axes_of_lists, extents};
ghost use Rattle.specification.specs.Views.{axis_at};
ghost use Rattle.view.specs.Answers.{outcome_by};

use crate::count::Extent;
use crate::layout::{MOST_AXES, Refusal};
use axis::Axis;

/// Axes that can be read one by one.
pub trait Axes: Copy {
    /// What has the extents.
    type Entry: Extent;

    ghost axes_of: { Self → List AxisModel };

    /// One entry an axis, in order.
    fn entries(&self) -> &[Self::Entry]
        ensures { Self.Entry.extents_of result.now ≡ extents (axes_of self.now) };

    /// The stride of the axis at a place, in readings.
    fn stride(&self, place: usize) -> i64
        requires { place < length (axes_of self.now) }
        ensures { result ≡ (axis_at (axes_of self.now) place).stride };
}

impl Axes for &[Axis] {
    type Entry = Axis;

    ghost axes_of = { λ axes. axes.now };

    fn entries(&self) -> &[Axis] {
        self
    }

    fn stride(&self, place: usize) -> i64 {
        self[place].stride
    }
}

/// Axes in two lists of one length, which is at most 16.
#[derive(Clone, Copy)]
pub struct Lists<'a> {
    /// One an axis.
    pub extents: &'a [u64],
    /// One an axis, in readings.
    pub strides: &'a [i64],
    ghost few: { length extents.now ≤ 16 },
    ghost alike: { length strides.now ≡ length extents.now },
}

impl<'a> Lists<'a> {
    ghost use Rattle.view.specs.Lists.{axes_in, paired};

    /// Refusal 1 for more than 16 entries in either, then 2 for lengths that differ; or the two lists.
    #[tactic(auto, using(crate::proofs::ListsLaws::many_extents, crate::proofs::ListsLaws::many_strides, crate::proofs::ListsLaws::lengths_differ, crate::proofs::ListsLaws::paired_lists))]
    pub fn new(extents: &'a [u64], strides: &'a [i64]) -> Result<Self, Refusal>
        ensures answer { outcome_by axes_in result ≡ paired extents.now strides.now }
        ensures extents { IfOk result (λ lists. lists.extents.now ≡ extents.now) }
        ensures strides { IfOk result (λ lists. lists.strides.now ≡ strides.now) }
    {
        // the common case first: it takes two tests
        if extents.len() == strides.len() && extents.len() <= MOST_AXES {
            return Ok(Lists { extents, strides });
        }
        if MOST_AXES < extents.len() || MOST_AXES < strides.len() {
            return Err(Refusal::TooManyAxes);
        }
        Err(Refusal::LengthsDiffer)
    }

    /// Their axes into the first places of an array; the places past them stay.
    pub fn store(&self, axes: &mut [Axis; 16])
        ensures { axes.new ≡ axes_in self.now ++ drop (length self.now.extents.now) axes.old }
    {
        // over all sixteen places: the compiler knows their number, and needs no counter
        for i in 0..MOST_AXES {
            let (Some(&extent), Some(&stride)) = (self.extents.get(i), self.strides.get(i)) else {
                break;
            };
            axes[i] = Axis { extent, stride };
        }
    }
}

/// A list by itself: of a list inside a struct the check knows no size.
fn stride_at(strides: &[i64], place: usize) -> i64
    requires { place < length strides.now }
    ensures { result ≡ slice_index_or strides.now place (pos 0) }
{
    strides[place]
}

impl Axes for Lists<'_> {
    ghost use Rattle.view.specs.Lists.{axes_in};

    type Entry = u64;

    ghost axes_of = { axes_in };

    #[tactic(auto, using(crate::proofs::AxesLaws::extents_axes_of_lists))]
    fn entries(&self) -> &[u64] {
        self.extents
    }

    #[tactic(auto, using(crate::proofs::AxesLaws::length_lists, crate::proofs::AxesLaws::stride_axes_of_lists))]
    fn stride(&self, place: usize) -> i64 {
        stride_at(self.strides, place)
    }
}

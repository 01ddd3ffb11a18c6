//! What a layout tells of its axes: how many there are, whether there is a position, the extents and the strides.
ghost use Rattle.std.specs.Prelude.{◌≡◌, take};
ghost use Rattle.specification.specs.Axis.{is_empty};
ghost use Rattle.specification.specs.Layout.{rank};
ghost use Rattle.view.specs.Model.{model_of};

use crate::count::has_no_position;
use crate::layout::{Layout, MOST_AXES};
use axis::Axis;

/// The extents of axes, one after another.
#[derive(Clone, Copy, Debug)]
pub struct Extents<'a>(&'a [Axis]);

impl Iterator for Extents<'_> {
    ghost use Rattle.std.specs.Iterator.{YieldsFirst, item_count};
    ghost use Rattle.view.specs.Parts.{extents_left};

    type Item = u64;

    ghost next_gives = { YieldsFirst extents_left };

    ghost remaining = { item_count extents_left };

    fn next(&mut self) -> Option<u64> {
        let (first, others) = self.0.split_first()?;
        self.0 = others;
        Some(first.extent)
    }
}

/// The strides of axes in readings, one after another.
#[derive(Clone, Copy, Debug)]
pub struct Strides<'a>(&'a [Axis]);

impl Iterator for Strides<'_> {
    ghost use Rattle.std.specs.Iterator.{YieldsFirst, item_count};
    ghost use Rattle.view.specs.Parts.{strides_left};

    type Item = i64;

    ghost next_gives = { YieldsFirst strides_left };

    ghost remaining = { item_count strides_left };

    fn next(&mut self) -> Option<i64> {
        let (first, others) = self.0.split_first()?;
        self.0 = others;
        Some(first.stride)
    }
}

impl Layout {
    ghost use Rattle.specification.specs.Axis.{extents, strides};
    ghost use Rattle.view.specs.Parts.{extents_left, strides_left};

    /// How many axes there are.
    #[tactic(auto, using(crate::proofs::ListedLaws::rank_model_of))]
    pub fn rank(&self) -> usize
        ensures { result ≡ rank (model_of self.now) }
    {
        self.rank
    }

    /// Whether there is no position. So it is of a rank above 16 too: an axis that has no place has extent 0.
    #[tactic(auto, using(crate::proofs::PartsLaws::empty_above, crate::proofs::PartsLaws::empty_by_extents))]
    pub fn is_empty(&self) -> bool
        ensures { result ≡ is_empty (model_of self.now).axes }
    {
        MOST_AXES < self.rank || has_no_position(self.few_axes())
    }

    /// The extents of the axes that `axes` hands out.
    pub fn extents(&self) -> Extents<'_>
        ensures { extents_left result ≡ extents (take 16 (model_of self.now).axes) }
    {
        Extents(self.axes())
    }

    /// The strides of the axes that `axes` hands out.
    pub fn strides(&self) -> Strides<'_>
        ensures { strides_left result ≡ strides (take 16 (model_of self.now).axes) }
    {
        Strides(self.axes())
    }
}

//! The number of positions.
ghost use Rattle.std.specs.Prelude.{◌≡◌, List, ℕ, map};
ghost use Rattle.specification.specs.Beside.{zero_among};
ghost use Rattle.view.specs.Answers.{outcome_of};
ghost use Rattle.view.specs.Count.{element_count};

use crate::bounded::bounded_product;
use crate::layout::{MOST_AXES, Refusal};
use axis::Axis;

/// An extent by itself, or what has one.
pub trait Extent: Copy {
    // the extents of a list, in its order
    ghost extents_of: { List Self → List ℕ };

    ghost extent_of: { Self → ℕ };

    /// How many indices the axis has.
    fn extent(self) -> u64
        ensures { result ≡ extent_of self };

    ghost each: { (list : List Self) → extents_of list ≡ map extent_of list };
}

impl Extent for u64 {
    ghost use Rattle.view.specs.Count.{map_same};

    ghost extents_of = { λ list. list };

    ghost extent_of = { λ n. n };

    ghost each = { map_same };

    fn extent(self) -> u64 {
        self
    }
}

impl Extent for Axis {
    ghost use Rattle.specification.specs.Axis.{extents};
    ghost use Rattle.view.specs.Count.{extents_map};

    ghost extents_of = { extents };

    ghost extent_of = { λ axis. axis.extent };

    ghost each = { extents_map };

    fn extent(self) -> u64 {
        self.extent
    }
}

/// Whether there is no position: some extent is 0.
pub fn has_no_position<E: Extent>(list: &[E]) -> bool
    ensures { result ≡ zero_among (E.extents_of list.now) }
{
    list.iter().any(|entry| entry.extent() == 0)
}

/// How many positions there are; refusal 1 for more than 16 extents, 8 for more than 2^64 - 1 positions.
pub fn element_count<E: Extent>(list: &[E]) -> Result<u64, Refusal>
    ensures { outcome_of result ≡ element_count (E.extents_of list.now) }
{
    if MOST_AXES < list.len() {
        return Err(Refusal::TooManyAxes);
    }
    // with an extent of 0 no product is too large
    if has_no_position(list) {
        return Ok(0);
    }
    let mut count: u64 = 1;
    for entry in list {
        count = bounded_product(count, entry.extent(), u64::MAX).ok_or(Refusal::TooManyPositions)?;
    }
    Ok(count)
}

/// `element_count` of a list of extents.
pub fn checked_element_count(extents: &[u64]) -> Result<u64, Refusal>
    ensures { outcome_of result ≡ element_count extents.now }
{
    element_count(extents)
}

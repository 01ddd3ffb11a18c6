//! Layouts whose axes stand separated as they are, or from the last on: dense by column or by row,
//! with gaps or without. They are answered at once, with no other test, and nothing gathered or sorted.
//!
//! Only extents below 2^31 and absolute strides below 2^32 are answered here: then no sum of spans leaves
//! a signed word, since an axis that is separated has more stride than all spans before it.
ghost use Rattle.std.specs.Prelude.{◌≡◌, reverse};
ghost use Rattle.specification.specs.Verdict.{active_from};
ghost use Rattle.injectivity.specs.Ordered.{span_after, separated_in_order};

use axis::Axis;

/// The largest extent and the largest absolute stride that are answered here.
const MOST_EXTENT: u64 = i32::MAX as u64;

const MOST_STRIDE: u64 = u32::MAX as u64;

/// The sum of the absolute spans with that of one axis more, if it is separated by them and no
/// larger than is answered here. One that is not active adds nothing.
#[tactic(auto, using(crate::proofs::OrderedLaws::span_fits))]
fn span_after(span: u64, axis: &Axis) -> Option<u64>
    ensures { result ≡ span_after span axis.now }
{
    if axis.extent <= 1 {
        return Some(span);
    }
    let stride = axis.stride.unsigned_abs();
    if stride <= span || MOST_STRIDE < stride || MOST_EXTENT < axis.extent {
        return None;
    }
    Some(span + (axis.extent - 1) * stride)
}

/// Whether each active axis is separated by those in front of it, and none is too large to be answered here.
#[tactic(auto, using(crate::proofs::OrderedLaws::by_column))]
pub fn is_separated_by_column(axes: &[Axis]) -> bool
    ensures { result ≡ separated_in_order 0 (active_from 0 axes.now) }
{
    let mut span: u64 = 0;
    for axis in axes {
        let Some(next) = span_after(span, axis) else {
            return false;
        };
        span = next;
    }
    true
}

/// Whether each active axis is separated by those behind it, and none is too large to be answered here.
#[tactic(auto, using(crate::proofs::OrderedLaws::by_row))]
pub fn is_separated_by_row(axes: &[Axis]) -> bool
    ensures { result ≡ separated_in_order 0 (reverse (active_from 0 axes.now)) }
{
    let mut span: u64 = 0;
    for axis in axes.iter().rev() {
        let Some(next) = span_after(span, axis) else {
            return false;
        };
        span = next;
    }
    true
}

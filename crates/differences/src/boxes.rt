//! How many difference vectors axes have.
ghost use Rattle.std.specs.Prelude.{◌≡◌, ◌-◌, ◌*◌, ◌<◌, ◌≤◌, IfSome, IfNone};
ghost use Rattle.specification.specs.Search.{box, total};

use axis::ActiveAxis;

/// `vectors` times as many as an axis of this extent has differences, if that is at most `most`. The product can pass a word.
pub fn with_axis(vectors: u64, extent: u64, most: u64) -> Option<u64>
    requires vectors { 0 < vectors }
    requires some { 0 < extent }
    ensures within { IfSome result (λ more. (more ≡ vectors * (2 * extent - 1)) × (more ≤ most)) }
    ensures past { IfNone result (most < vectors * (2 * extent - 1)) }
{
    let middle = extent - 1;
    let width = middle.checked_mul(2)? + 1;
    let more = vectors.checked_mul(width)?;
    if more <= most { Some(more) } else { None }
}

/// How many difference vectors the axes have, if that is at most `most`. It stops at the first product above: the box itself
/// can pass a word.
#[tactic(auto, unfolding(specification::specs::Axis::product), using(crate::proofs::BoxLaws::box_next))]
pub fn box_within(axes: &[ActiveAxis], most: u64) -> Option<u64>
    requires some { 0 < total axes.now }
    requires least { 0 < most }
    ensures within { IfSome result (λ vectors. (vectors ≡ box axes.now) × (vectors ≤ most)) }
    ensures past { IfNone result (most < box axes.now) }
{
    let mut vectors: u64 = 1;
    for axis in axes {
        vectors = with_axis(vectors, axis.extent, most)?;
    }
    Some(vectors)
}

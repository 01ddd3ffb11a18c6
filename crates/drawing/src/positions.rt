// Positions: the index vector of each, and the offset at which it stands.
ghost use Rattle.std.specs.Prelude.{◌≡◌, ◌≤◌, ◌<◌, length};
ghost use Rattle.specification.specs.Axis.{extents, positions, index_at};

use arrayvec::ArrayVec;
use axis::Axis;
use view::layout::MOST_AXES;

/// The index vector of a position: the index of axis 0 changes fastest.
pub(crate) fn index_of(axes: &[Axis], position: u64) -> ArrayVec<u64, MOST_AXES>
    requires few { length axes.now ≤ 16 }
    requires there { position < positions axes.now }
    ensures { result.items ≡ index_at (extents axes.now) position }
{
    let mut index = ArrayVec::new();
    let mut rest = position;
    for axis in axes {
        index.push(rest % axis.extent);
        rest /= axis.extent;
    }
    index
}

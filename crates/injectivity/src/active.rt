//! The active axes of a layout, gathered from its axes.
ghost use Rattle.std.specs.Prelude.{◌≡◌, ◌≤◌, length, nat_abs, take};
ghost use Rattle.specification.specs.Verdict.{active_from};

use axis::{ActiveAxis, Axis};

/// An axis with its number, and its stride without the sign.
fn active_axis(axis: usize, layout_axis: &Axis) -> ActiveAxis
    ensures { result ≡ record {
      axis = axis;
      extent = layout_axis.now.extent;
      stride = nat_abs layout_axis.now.stride;
    } }
{
    ActiveAxis {
        axis,
        extent: layout_axis.extent,
        stride: layout_axis.stride.unsigned_abs(),
    }
}

/// The active axes in the first places of the room, in axis order, and how many they are.
#[tactic(auto, using(crate::proofs::ActiveLaws::gathering))]
pub fn gather_active(axes: &[Axis], active: &mut [ActiveAxis; 16]) -> usize
    requires { length axes.now ≤ 16 }
    ensures count { result ≡ length (active_from 0 axes.now) }
    ensures gathered { take result active.new ≡ active_from 0 axes.now }
{
    let mut count: usize = 0;
    for (axis, layout_axis) in axes.iter().enumerate() {
        let inactive = layout_axis.extent <= 1;
        if inactive {
            continue;
        }
        active[count] = active_axis(axis, layout_axis);
        count += 1;
    }
    count
}

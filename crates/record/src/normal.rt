//! The normal form of a layout: axes of extent 1 dropped, neighbours merged.
ghost use Rattle.std.specs.Prelude.{◌≡◌, ◌≤◌, ◌<◌, ◌+◌, ◌*◌, ◌^◌};
ghost use Rattle.specification.specs.Axis.{positions};
ghost use Rattle.specification.specs.Normal.{continues, normal_of, normal_form};
ghost use Rattle.specification.specs.Views.{with_axes};
ghost use Rattle.view.specs.Model.{model_of, layout_outcome};
ghost use Rattle.record.specs.Normal.{with_axis};

use axis::Axis;
use integer::signed::checked_mul;
use view::count::element_count;
use view::layout::{Layout, MOST_AXES, ReadingOffset, Refusal};

/// Whether an axis goes on where the one before it ends: its stride is that one's extent × stride.
/// A product that 64 bits do not hold equals no stride.
#[tactic(auto, using(crate::proofs::MergeLaws::continues_tested))]
pub(crate) fn continues(before: Axis, axis: Axis) -> bool
    ensures { result ≡ continues before axis }
{
    checked_mul(before.stride, before.extent) == Some(axis.stride)
}

/// One axis more at the end: dropped if its extent is 1, merged into the last one if it continues
/// that, else stored behind it.
#[tactic(auto, using(crate::proofs::MergeLaws::appended))]
fn append(form: &mut Layout, axis: Axis)
    requires room { form.old.rank < 16 }
    requires full { 0 < positions (model_of form.old).axes }
    requires within { positions (model_of form.old).axes * axis.extent < 2 ^ 64 }
    ensures rank { form.new.rank ≤ form.old.rank + 1 }
    ensures form { model_of form.new
        ≡ with_axes (model_of form.old) (with_axis (model_of form.old).axes axis) }
{
    if axis.extent == 1 {
        return;
    }
    if 0 < form.rank && continues(form.axes[form.rank - 1], axis) {
        form.axes[form.rank - 1].extent *= axis.extent;
    } else {
        form.axes[form.rank] = axis;
        form.rank += 1;
    }
}

/// The normal form if there is a position: one pass from the left.
#[tactic(auto, using(crate::proofs::MergeLaws::passed))]
fn merged(layout: &Layout) -> Layout
    requires few { layout.now.rank ≤ 16 }
    requires full { 0 < positions (model_of layout.now).axes }
    requires within { positions (model_of layout.now).axes < 2 ^ 64 }
    ensures { model_of result ≡ normal_of (model_of layout.now) }
{
    let axes = layout.axes();
    let mut form = Layout { rank: 0, ..*layout };
    for axis in axes {
        append(&mut form, *axis);
    }
    form
}

/// The normal form if there is no position: one axis, extent 0, stride 0, offset 0; the buffer
/// length stays.
#[tactic(auto, using(crate::proofs::MergeLaws::no_position), unfolding(view::specs::Table::table))]
fn empty_form(layout: &Layout) -> Layout
    requires { positions (model_of layout.now).axes ≡ 0 }
    ensures { model_of result ≡ normal_of (model_of layout.now) }
{
    Layout {
        len: layout.len,
        offset: ReadingOffset(0),
        rank: 1,
        axes: [Axis::NONE; MOST_AXES],
    }
}

/// The normal form, with the same buffer length in readings. Refusal 1 is more than 16 axes, 3 an
/// offset outside the buffer, 8 more than 2^64 - 1 positions.
#[tactic(auto, using(crate::proofs::NormalAnswers::by_tests))]
pub fn normal_form(layout: &Layout) -> Result<Layout, Refusal>
    ensures { layout_outcome result ≡ normal_form (model_of layout.now) }
{
    layout.handed_refusal(0)?;
    let count = element_count(layout.axes())?;
    if count == 0 {
        return Ok(empty_form(layout));
    }
    Ok(merged(layout))
}

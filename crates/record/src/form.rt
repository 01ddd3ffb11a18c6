//! The reader's test for a normal form, and the buffer length that it gives.
ghost use Rattle.std.specs.Prelude.{◌≡◌, ◌≤◌, length};
ghost use Rattle.specification.specs.Normal.{overfull};
ghost use Rattle.specification.specs.Record.{is_merged, is_empty_form};
ghost use Rattle.record.specs.Reader.{fields_told, length_to_highest, needed_length};

use crate::normal::continues;
use axis::Axis;
use view::bounds::sum_spans;
use view::count::element_count;
use view::layout::ReadingOffset;

/// Whether each extent is above 1 and no axis continues the one before it.
#[tactic(auto, unfolding(specification::specs::Record::is_merged))]
fn is_merged(axes: &[Axis]) -> bool
    ensures { result ≡ is_merged axes.now }
{
    match axes {
        [] => true,
        [axis] => 1 < axis.extent,
        [before, rest @ ..] => {
            1 < before.extent && !continues(*before, rest[0]) && is_merged(rest)
        }
    }
}

/// Whether this is an empty layout's normal form: offset 0, and one axis of extent 0 and stride 0.
fn is_empty_form(offset: ReadingOffset, axes: &[Axis]) -> bool
    ensures { result ≡ is_empty_form (fields_told offset.0 axes.now) }
{
    offset == ReadingOffset(0) && axes == [Axis::NONE].as_slice()
}

/// Whether there are more than 2^64 - 1 positions.
#[tactic(auto, using(crate::proofs::NormalAnswers::count_by_test))]
fn is_overfull(axes: &[Axis]) -> bool
    requires { length axes.now ≤ 16 }
    ensures { result ≡ overfull axes.now }
{
    element_count(axes).is_err()
}

/// The highest offset and 1, if no offset is below 0 or above 2^63 - 1; a zero extent counts
/// as 1.
fn length_to_highest(offset: ReadingOffset, axes: &[Axis]) -> Option<u64>
    ensures { result ≡ length_to_highest (fields_told offset.0 axes.now) }
{
    if offset.0 < 0 {
        return None;
    }
    let base = offset.0.unsigned_abs();
    let spans = sum_spans(axes, i64::MAX as u64 - base, base)?;
    Some(base + spans.up + 1)
}

/// The buffer length, in readings, that an offset and axes need, if they are a normal form of at
/// most 2^64 - 1 positions with no offset below 0 or above 2^63 - 1: the highest offset + 1, or 0
/// if there is no position.
#[tactic(auto, using(crate::proofs::FormLaws::needed_by_parts))]
pub(crate) fn buffer_length(offset: ReadingOffset, axes: &[Axis]) -> Option<u64>
    requires { length axes.now ≤ 16 }
    ensures { result ≡ needed_length (fields_told offset.0 axes.now) }
{
    if is_empty_form(offset, axes) {
        return Some(0);
    }
    if !is_merged(axes) || is_overfull(axes) {
        return None;
    }
    length_to_highest(offset, axes)
}

//! The fields of a record: how many bytes they take, and how they are put to the front of an
//! output.
ghost use Rattle.std.specs.Prelude.{◌≡◌, ◌++◌, ◌≤◌, ◌*◌, length, drop};
ghost use Rattle.specification.specs.Record.{record_length, axis_bytes, head_length, axis_length};
ghost use Rattle.view.specs.Model.{model_of};
ghost use Rattle.record.specs.Fields.{head_bytes, record_fields};

use axis::Axis;
use view::layout::Layout;

/// A place counted in bytes.
#[derive(Clone, Copy, Debug, PartialEq, Eq, PartialOrd, Ord)]
pub struct BytePlace(pub usize);

/// Where the offset stands: behind the length of the record in 2 bytes, and version, verdict and rank in one each.
pub(crate) const OFFSET_PLACE: BytePlace = BytePlace(5);

/// The bytes before the axes: those, and 8 of the offset.
pub(crate) const HEAD_BYTES: usize = OFFSET_PLACE.0 + 8;

/// The bytes of an axis: 8 of its extent, 8 of its stride.
pub(crate) const AXIS_BYTES: usize = 16;

/// The version that stands in a record.
pub(crate) const VERSION: u8 = 1;

/// How many bytes the record of so many axes has.
pub(crate) fn record_length(rank: usize) -> usize
    requires { rank ≤ 16 }
    ensures { result ≡ record_length rank }
{
    HEAD_BYTES + AXIS_BYTES * rank
}

/// The length of the record, version, verdict, rank and offset, into the bytes of a head.
#[tactic(auto, using(view::proofs::ListedLaws::rank_model_of), unfolding(crate::specs::Fields::head_bytes))]
fn put_head(head: &mut [u8], layout: &Layout, verdict: u8)
    requires few { layout.now.rank ≤ 16 }
    requires room { length head.old ≡ head_length }
    ensures { head.new ≡ head_bytes (model_of layout.now) verdict }
{
    let [high, low] = (record_length(layout.rank) as u16).to_be_bytes();
    let (fields, offset) = head.split_at_mut(OFFSET_PLACE.0);
    fields.copy_from_slice(&[high, low, VERSION, verdict, layout.rank as u8]);
    offset.copy_from_slice(&layout.offset.0.to_be_bytes());
}

/// Extent and stride of each axis, one axis behind the other, into as many bytes as they take.
#[tactic(auto, unfolding(specification::specs::Record::axis_bytes))]
fn put_axes(out: &mut [u8], axes: &[Axis])
    requires { length out.old ≡ axis_length * length axes.now }
    ensures { out.new ≡ axis_bytes axes.now }
{
    let Some((axis, axes)) = axes.split_first() else {
        return;
    };
    let (field, out) = out.split_at_mut(AXIS_BYTES);
    let words = [axis.extent.to_be_bytes(), axis.stride.to_be_bytes()];
    field.copy_from_slice(words.as_flattened());
    put_axes(out, axes);
}

/// The record of a layout with a verdict byte at the front; the bytes past it stay.
pub(crate) fn put_record(out: &mut [u8], layout: &Layout, verdict: u8)
    requires few { layout.now.rank ≤ 16 }
    requires room { record_length layout.now.rank ≤ length out.old }
    ensures { out.new ≡ record_fields (model_of layout.now) verdict
        ++ drop (record_length layout.now.rank) out.old }
{
    let (record, _) = out.split_at_mut(record_length(layout.rank));
    let (head, axes) = record.split_at_mut(HEAD_BYTES);
    put_head(head, layout, verdict);
    put_axes(axes, layout.axes());
}

//! The reader's first part: a whole record at the front of bytes, up to the verdict that its byte
//! claims.
ghost use Rattle.std.specs.Prelude.{◌≡◌, ◌≤◌, ◌+◌, ◌*◌, length, take, option_map, IfSome};
ghost use Rattle.specification.specs.Record.{record_length, axes_from, head_length, axis_length, number_at};
ghost use Rattle.record.specs.Reader.{axis_told, head_told, front_told, front_model};

use crate::fields::{AXIS_BYTES, BytePlace, HEAD_BYTES, OFFSET_PLACE, VERSION, record_length};
use crate::form::buffer_length;
use crate::step::length_field;
use axis::Axis;
use view::layout::{Layout, MOST_AXES, ReadingOffset};

/// What the first bytes of a record tell: the byte of its verdict, and how many axes follow.
#[derive(Clone, Copy, Debug, PartialEq, Eq)]
pub struct Head {
    /// 1 to 3.
    pub verdict: u8,
    /// How many axes, at most 16.
    pub rank: usize,
}

/// A layout, and the byte of the verdict claimed for it.
#[derive(Clone, Copy, Debug)]
pub struct Front {
    /// A normal form, with the buffer length that it needs.
    pub layout: Layout,
    /// 1 to 3; nothing says that it is true.
    pub verdict: u8,
}

/// The head, if the front bytes hold every field: length, version, verdict, rank, and as many
/// bytes as these ask for.
#[tactic(auto, unfolding(specification::specs::Record::fields_right))]
pub fn read_head(bytes: &[u8]) -> Option<Head>
    ensures { result ≡ head_told bytes.now }
{
    let [_, _, VERSION, verdict @ 1..=3, rank @ ..=16, ..] = bytes else {
        return None;
    };
    let rank = usize::from(*rank);
    let size = record_length(rank);
    if length_field(bytes) != Some(size) || bytes.len() < size {
        return None;
    }
    Some(Head {
        verdict: *verdict,
        rank,
    })
}

/// The number that the 8 bytes from a place on hold.
#[tactic(auto, unfolding(specification::specs::Record::number_at))]
fn number_at(bytes: &[u8], at: BytePlace) -> u64
    requires { at.0 + 8 ≤ length bytes.now }
    ensures { result ≡ number_at bytes.now at.0 }
{
    u64::from_be_bytes(*bytes[at.0..].first_chunk::<8>().unwrap())
}

/// The axis that the bytes from a place on hold: extent, then stride.
fn axis_at(bytes: &[u8], at: BytePlace) -> Axis
    requires { at.0 + axis_length ≤ length bytes.now }
    ensures { result ≡ axis_told bytes.now at.0 }
{
    Axis {
        extent: number_at(bytes, at),
        stride: number_at(bytes, BytePlace(at.0 + 8)).cast_signed(),
    }
}

/// The axes that the bytes from a place on hold, one behind the other.
#[tactic(auto, unfolding(specification::specs::Record::axes_from))]
fn read_axes(axes: &mut [Axis], bytes: &[u8], at: BytePlace)
    requires { at.0 + axis_length * length axes.old ≤ length bytes.now }
    ensures { axes.new ≡ axes_from bytes.now at.0 (length axes.old) }
{
    let Some((axis, axes)) = axes.split_first_mut() else {
        return;
    };
    *axis = axis_at(bytes, at);
    read_axes(axes, bytes, BytePlace(at.0 + AXIS_BYTES));
}

/// The axes that the fields of a record tell, in the first places.
#[tactic(auto, using(std::proofs::lemmas::List::take_at))]
fn axes_at_front(bytes: &[u8], rank: usize) -> [Axis; MOST_AXES]
    requires few { rank ≤ 16 }
    requires whole { record_length rank ≤ length bytes.now }
    ensures { take rank result ≡ axes_from bytes.now head_length rank }
{
    let mut axes = [Axis::NONE; MOST_AXES];
    read_axes(&mut axes[..rank], bytes, BytePlace(HEAD_BYTES));
    axes
}

/// The layout of a whole record at the front, and the verdict that it claims; none, if the bytes
/// are no record of a normal form.
#[tactic(auto, using(view::proofs::AxesLaws::first_axes_take, crate::proofs::FrontLaws::fronts))]
pub fn read_front(bytes: &[u8]) -> Option<Front>
    ensures told { option_map front_model result ≡ front_told bytes.now }
    ensures few { IfSome result (λ front. front.layout.rank ≤ 16) }
{
    let Head { verdict, rank } = read_head(bytes)?;
    let offset = ReadingOffset(number_at(bytes, OFFSET_PLACE).cast_signed());
    let axes = axes_at_front(bytes, rank);
    let len = buffer_length(offset, &axes[..rank])?;
    Some(Front {
        layout: Layout {
            len,
            offset,
            rank,
            axes,
        },
        verdict,
    })
}

//! Stepping over a record: the part of the caller's bytes behind it.
ghost use Rattle.std.specs.Prelude.{◌≡◌};
ghost use Rattle.specification.specs.Record.{rest_of};
ghost use Rattle.record.specs.Reader.{length_told};

use crate::fields::HEAD_BYTES;

/// The length field: the number that the first 2 bytes hold, if there are so many.
#[tactic(auto, unfolding(specification::specs::Record::length_field))]
pub(crate) fn length_field(bytes: &[u8]) -> Option<usize>
    ensures { result ≡ length_told bytes.now }
{
    let length = bytes.first_chunk::<2>()?;
    Some(usize::from(u16::from_be_bytes(*length)))
}

/// The rest: what stands behind as many bytes as the length field says; the empty part at the end,
/// if that length is missing, below 13 or past the end. No other field is looked at.
#[tactic(auto, unfolding(specification::specs::Record::rest_of))]
pub fn step_over(bytes: &[u8]) -> &[u8]
    ensures { result.now ≡ rest_of bytes.now }
{
    match length_field(bytes) {
        Some(size) if HEAD_BYTES <= size && size <= bytes.len() => &bytes[size..],
        _ => &bytes[bytes.len()..],
    }
}

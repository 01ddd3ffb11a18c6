//! The bounds alone, offsets of index vectors, the order of strides, dense strides.
ghost use Rattle.std.specs.Prelude.{◌≡◌, ◌≤◌, nat_le, length};
ghost use Rattle.std.specs.Result.{ForOk};
ghost use Rattle.specification.specs.CheckIn.{check_in};
ghost use Rattle.specification.specs.Beside.{indexed_offset, index_order, order_after, col_major, row_major};
ghost use Rattle.view.specs.Answers.{outcome_of};
ghost use Rattle.view.specs.Model.{model_of};
ghost use Rattle.strided.specs.Crossing.{number_after, places, values_after, result_after, front_after, dense_into};

use crate::crossing::{Values, answer_number, refuse};
use auxiliary::index_order_into;
use dense::{DenseStrides, checked_col_major_strides, checked_row_major_strides};
use view::bounds::validate_bounds;
use view::layout::{Layout, ReadingOffset, Refusal};

/// The answer if the caller's array is too short. It comes before every refusal.
const SHORT_BUFFER: u8 = 255;

/// What check-in of this length and offset (both in readings) answers, with nothing stored.
///
/// Refusals: 1 more than 16 entries; 2 the lists differ in length; 3 an extent, a span or an
/// offset is out of range, or an offset is outside the length (never if some extent is 0).
#[unsafe(no_mangle)]
pub extern "C" fn strided_validate_bounds(
    len: u64,
    offset: i64,
    extents: &[u64],
    strides: &[i64],
) -> u8
    ensures { result ≡ number_after (check_in len offset extents.now strides.now) }
{
    answer_number(validate_bounds(len, ReadingOffset(offset), extents, strides))
}

/// The offset of an index vector, in readings: 0, and it stands in `offset`.
///
/// Refusals: 1 more than 16 axes or indices; 3 the layout is not accepted; 4, with the indices and
/// the rank, as many indices as axes are wanted; then axis by axis 7, with the axis, an index is
/// not below its extent, or 3 an index, a product or a sum is out of range. After a refusal
/// `offset` is as it was, and its values stand in the first places of `values`; other places stay.
#[unsafe(no_mangle)]
pub extern "C" fn strided_indexed_offset(
    layout: &Layout,
    index: &[u64],
    offset: &mut ReadingOffset,
    values: &mut Values,
) -> u8
    ensures answer { result ≡ number_after (indexed_offset (model_of layout.now) index.now) }
    ensures offset { offset.new.0 ≡
        result_after (indexed_offset (model_of layout.now) index.now) offset.old.0 }
    ensures values { places values.new ≡
        values_after (indexed_offset (model_of layout.now) index.now) values.old }
{
    match layout.indexed_offset(index) {
        Ok(at) => {
            *offset = at;
            0
        }
        Err(why) => refuse(why, values),
    }
}

/// Each stride's number by absolute value, 1 for the least above 0 and for 0: 0, and the numbers in `out`.
///
/// Refusals: 1 more than 16 strides; 2 `out` has another length. After a refusal `out` is as it
/// was.
#[unsafe(no_mangle)]
pub extern "C" fn strided_index_order(strides: &[i64], out: &mut [usize]) -> u8
    ensures answer { result ≡ number_after (index_order strides.now (length out.old)) }
    ensures output { out.new ≡ order_after (index_order strides.now (length out.old)) out.old }
{
    answer_number(index_order_into(strides, out))
}

/// Whether an array is at least as long as the extents that strides are wanted for.
fn has_room(strides: &[i64], extents: &[u64]) -> bool
    ensures { result ≡ nat_le (length extents.now) (length strides.now) }
{
    extents.len() <= strides.len()
}

/// The strides into the first places; on a refusal its number.
fn answer_dense(dense: Result<DenseStrides, Refusal>, strides: &mut [i64]) -> u8
    requires room { ForOk dense (λ front. length front ≤ length strides.old) }
    ensures answer { result ≡ number_after (outcome_of dense) }
    ensures strides { strides.new ≡ front_after (outcome_of dense) strides.old }
{
    match dense {
        Err(why) => why.number(),
        Ok(front) => {
            let front = front.as_slice();
            strides[..front.len()].copy_from_slice(front);
            0
        }
    }
}

/// Dense strides by column, where the first axis is the densest: 0, and they stand in the first
/// places of `strides`; those past them stay.
///
/// 255 if `strides` is shorter than `extents`. Refusals: 1 more than 16 extents; 3 more than
/// 2^63 - 1 positions. After each of them `strides` is as it was.
#[unsafe(no_mangle)]
pub extern "C" fn strided_column_strides(extents: &[u64], strides: &mut [i64]) -> u8
    ensures answer { result ≡
        number_after (dense_into col_major extents.now (length strides.old)) }
    ensures strides { strides.new ≡
        front_after (dense_into col_major extents.now (length strides.old)) strides.old }
{
    if !has_room(strides, extents) {
        return SHORT_BUFFER;
    }
    answer_dense(checked_col_major_strides(extents), strides)
}

/// Dense strides by row, where the last axis is the densest: 0, and they stand in the first places
/// of `strides`; those past them stay.
///
/// 255 if `strides` is shorter than `extents`. Refusals: 1 more than 16 extents; 3 more than
/// 2^63 - 1 positions. After each of them `strides` is as it was.
#[unsafe(no_mangle)]
pub extern "C" fn strided_row_strides(extents: &[u64], strides: &mut [i64]) -> u8
    ensures answer { result ≡
        number_after (dense_into row_major extents.now (length strides.old)) }
    ensures strides { strides.new ≡
        front_after (dense_into row_major extents.now (length strides.old)) strides.old }
{
    if !has_room(strides, extents) {
        return SHORT_BUFFER;
    }
    answer_dense(checked_row_major_strides(extents), strides)
}

//! The record: written, read and stepped over.
ghost use Rattle.std.specs.Prelude.{◌≡◌, ◌≢◌, ◌≤◌, length, drop};
ghost use Rattle.specification.specs.Verdict.{ScratchAfter};
ghost use Rattle.specification.specs.Record.{written, write_answer, write_frees, output_after, read_of, read_frees, rest_of};
ghost use Rattle.view.specs.Model.{model_of};
ghost use Rattle.record.specs.Reading.{layout_read};
ghost use Rattle.record.specs.Writer.{wrote_of};
ghost use Rattle.strided.specs.Crossing.{number_after, places, values_after, written_after, result_after};

use crate::crossing::{Values, answer_with_count, refuse};
use record::fields::BytePlace;
use record::read::read_record;
use record::step::step_over;
use record::writer::write_record;
use view::layout::Layout;

/// The record of the layout's normal form, with its verdict, in the first bytes of the output: 0, and
/// in `values.first` how many bytes it has. The bytes behind it stay, and so does `values.second`.
///
/// Refusals: 1, 3 and 8 as of the normal form; 10, with the bytes that are needed, a shorter
/// output; 9, with the words that are needed, a shorter scratch. After a refusal output and scratch
/// are as they were, and its values stand in the first places of `values`; other places stay.
/// After 0 the scratch words that the verdict needs may hold anything, and those past them stay.
#[unsafe(no_mangle)]
pub extern "C" fn strided_write(
    layout: &Layout,
    out: &mut [u8],
    scratch: &mut [u64],
    values: &mut Values,
) -> u8
    ensures answer { result ≡ number_after
        (write_answer (written (model_of layout.now) (length out.old) (length scratch.old))) }
    ensures output { out.new ≡ output_after
        (written (model_of layout.now) (length out.old) (length scratch.old)) out.old }
    ensures scratch { ScratchAfter (write_frees
        (written (model_of layout.now) (length out.old) (length scratch.old)))
        scratch.old scratch.new }
    ensures values { places values.new ≡ written_after
        (write_answer (written (model_of layout.now) (length out.old) (length scratch.old)))
        values.old }
{
    let wrote = write_record(layout, out, scratch);
    answer_with_count(wrote.map(|BytePlace(size)| size), values)
}

/// The layout of the record that the bytes begin with, whose verdict is judged afresh: 0, and the
/// layout is it, with its highest offset + 1 as its length in readings (0 if it is empty).
///
/// Refusals: 11 the bytes hold no record; 9, with the words that are needed, a shorter scratch;
/// 11 the verdict is false. After a refusal the layout is as it was, and its values stand in the
/// first places of `values`; other places stay. The scratch words that the verdict needs may hold
/// anything after 0 and after a false verdict; those past them stay, and all of them otherwise.
#[unsafe(no_mangle)]
pub extern "C" fn strided_read(
    layout: &mut Layout,
    bytes: &[u8],
    scratch: &mut [u64],
    values: &mut Values,
) -> u8
    ensures answer { result ≡
        number_after (layout_read (read_of bytes.now (length scratch.old))) }
    ensures layout { model_of layout.new ≡ result_after
        (layout_read (read_of bytes.now (length scratch.old))) (model_of layout.old) }
    ensures kept { result ≢ 0 → layout.new ≡ layout.old }
    ensures scratch { ScratchAfter
        (read_frees bytes.now (length scratch.old)) scratch.old scratch.new }
    ensures values { places values.new ≡ values_after
        (layout_read (read_of bytes.now (length scratch.old))) values.old }
{
    match read_record(bytes, scratch) {
        Ok(front) => {
            *layout = front;
            0
        }
        Err(why) => refuse(why, values),
    }
}

/// Where the rest begins: behind as many bytes as the length in the first two says; at the end, if
/// that length is missing, below 13 or past the end. No other field is looked at.
#[tactic(auto, using(std::proofs::lemmas::Grind::common_steps), unfolding(specification::specs::Record::rest_of))]
#[unsafe(no_mangle)]
pub extern "C" fn strided_step(bytes: &[u8]) -> usize
    ensures within { result ≤ length bytes.now }
    ensures rest { drop result bytes.now ≡ rest_of bytes.now }
{
    let rest = step_over(bytes);
    bytes.len() - rest.len()
}

//! Whether two lists of calls read the same places in the same order, told by two records.
ghost use Rattle.std.specs.Prelude.{map};
ghost use Rattle.specification.specs.Layout.{IsAccepted};
ghost use Rattle.view.specs.Answers.{outcome_of};
ghost use Rattle.view.specs.Model.{model_of};
ghost use Rattle.record.specs.Calls.{call_in};
ghost use Rattle.record.specs.SameReadings.{Compared, Means};

use crate::calls::{Call, run};
use crate::fields::BytePlace;
use crate::writer::write_record;
use view::layout::{Layout, Refusal};

/// Whether two lists of calls, each run from a layout of its own, come to layouts with equally many
/// positions and the same offset at each. Their records tell it, and are left at the front of the
/// two outputs.
///
/// Refusals are those of `write_record` on the first end layout, then on the second: 1, 3 and 8 of
/// the layout, 10 with the bytes that its output needs, 9 with the words that the scratch needs.
/// After the first one's everything is as it was; after the second one's the first record is
/// written, and the other output is as it was. The words of scratch past those needed stay. A start
/// that is not accepted is left as it is by each call, and its writer refuses it.
#[tactic(auto, using(crate::proofs::SameLaws::fits, crate::proofs::SameLaws::front_whole))]
pub fn same_readings(
    first: Layout,
    calls: &[Call<'_>],
    second: Layout,
    other_calls: &[Call<'_>],
    output: &mut [u8],
    other_output: &mut [u8],
    scratch: &mut [u64],
) -> Result<bool, Refusal>
    ensures compared { Compared
        (model_of first) (model_of second) (map call_in calls.now) (map call_in other_calls.now)
        output.old other_output.old scratch.old
        (outcome_of result) output.new other_output.new scratch.new }
    ensures means { IsAccepted (model_of first) → IsAccepted (model_of second) → Means
        (model_of first) (model_of second) (map call_in calls.now) (map call_in other_calls.now)
        output.old other_output.old scratch.old
        (outcome_of result) output.new other_output.new scratch.new }
{
    let BytePlace(end) = write_record(&run(first, calls), output, scratch)?;
    let BytePlace(other_end) = write_record(&run(second, other_calls), other_output, scratch)?;
    Ok(output[..end] == other_output[..other_end])
}

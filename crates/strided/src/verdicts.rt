//! The verdict.
ghost use Rattle.std.specs.Prelude.{◌≡◌, length};
ghost use Rattle.specification.specs.Verdict.{freed_by, ScratchAfter};
ghost use Rattle.injectivity.specs.Judgement.{axes_judged, judged_of, told_of};
ghost use Rattle.strided.specs.Crossing.{number_after, places, values_after, found_after};

use crate::crossing::{Found, Values, refuse};
use axis::Axis;
use injectivity::{Judgement, is_injective_axes};
use view::layout::Refusal;

/// The verdict into `found`, or the refusal.
fn answer_judgement(
    judged: Result<Judgement, Refusal>,
    found: &mut Found,
    values: &mut Values,
) -> u8
    ensures answer { result ≡ number_after (judged_of judged) }
    ensures found { found.new ≡ found_after (judged_of judged) found.old }
    ensures values { places values.new ≡ values_after (judged_of judged) values.old }
{
    match judged {
        Ok(judgement) => {
            *found = Found {
                verdict: judgement.number(),
                count: judgement.count(),
            };
            0
        }
        Err(why) => refuse(why, values),
    }
}

/// Whether no two positions of the axes share an offset: 0, and the verdict in `found`.
///
/// Refusals: 1 more than 16 axes; 8 more than 2^64 - 1 positions; 3 an extent, a stride, a span or a sum of spans
/// is out of range; 9, with the words that are needed, a shorter scratch. After a refusal `found`
/// and the scratch are as they were, and its values stand in the first places of `values`; other
/// places stay. After 0 the scratch words that the verdict needs may hold anything, and those past
/// them stay.
#[unsafe(no_mangle)]
pub extern "C" fn strided_is_injective(
    axes: &[Axis],
    scratch: &mut [u64],
    found: &mut Found,
    values: &mut Values,
) -> u8
    ensures answer { result
        ≡ number_after (told_of (axes_judged axes.now (length scratch.old))) }
    ensures found { found.new
        ≡ found_after (told_of (axes_judged axes.now (length scratch.old))) found.old }
    ensures scratch { ScratchAfter (freed_by (axes_judged axes.now (length scratch.old)))
        scratch.old scratch.new }
    ensures values { places values.new
        ≡ values_after (told_of (axes_judged axes.now (length scratch.old))) values.old }
{
    answer_judgement(is_injective_axes(axes, scratch), found, values)
}

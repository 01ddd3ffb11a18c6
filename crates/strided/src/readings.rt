//! Readings copied through two layouts, and their means along an axis of one.
ghost use Rattle.std.specs.Prelude.{◌≡◌, length};
ghost use Rattle.specification.specs.Verdict.{ScratchAfter};
ghost use Rattle.view.specs.Model.{model_of};
ghost use Rattle.copying.specs.Copy.{copy_refusal, copy_frees, copy_after};
ghost use Rattle.means.specs.Means.{means_of, means_after};
ghost use Rattle.strided.specs.Crossing.{number_after, places, values_after, written_after};

use crate::crossing::{Values, answer_with_count, answer_with_values};
use copying::copy;
use means::means;
use view::layout::Layout;

/// For each index vector the reading at its offset in the source, stored at its offset in the
/// destination: 0, and all other readings of `to` stay.
///
/// Refusals: 1 either layout has more than 16 axes; 3 either is not accepted; 12 their lists of
/// extents differ; 13 a buffer is shorter than its layout's highest offset + 1 (never if some
/// extent is 0); 8 more than 2^64 - 1 positions; 9, with the words that are needed, a shorter
/// scratch; 14 the verdict on the destination, by its own extents and strides, is not Distinct.
/// After a refusal `to` is as it was, and its values stand in the first places of `values`; other
/// places stay. The scratch words that this verdict needs may hold anything after 0 and after 14;
/// those past them stay, and all of them otherwise.
#[unsafe(no_mangle)]
pub extern "C" fn strided_copy(
    source: &Layout,
    from: &[i32],
    destination: &Layout,
    to: &mut [i32],
    scratch: &mut [u64],
    values: &mut Values,
) -> u8
    ensures answer { result ≡ number_after (copy_refusal (model_of source.now)
        (model_of destination.now) (length from.now) (length to.old) (length scratch.old)) }
    ensures copied { to.new ≡ copy_after
        (copy_refusal (model_of source.now) (model_of destination.now) (length from.now)
        (length to.old) (length scratch.old))
        (model_of source.now) (model_of destination.now) from.now to.old }
    ensures freed { ScratchAfter
        (copy_frees (model_of source.now) (model_of destination.now) (length from.now)
        (length to.old) (length scratch.old))
        scratch.old scratch.new }
    ensures values { places values.new ≡ values_after
        (copy_refusal (model_of source.now) (model_of destination.now) (length from.now)
        (length to.old) (length scratch.old))
        values.old }
{
    answer_with_values(copy(source, from, destination, to, scratch), values)
}

/// The mean of the readings along an axis, for each position of the remaining axes (all but that
/// one, in their order, the first of them fastest): 0, the means in the first places of `out` in
/// position order, and in `values.first` how many they are. The places behind them stay, and so
/// does `values.second`. The readings of a mean are summed whole and divided once, halves away from
/// zero. A mean is in the unit of the readings, and `readings` and `out` count readings.
///
/// Refusals: 1 more than 16 axes; 3 the layout is not accepted; 5, with the axis and the rank, the
/// axis is not below the rank; 8 more than 2^64 - 1 positions of the remaining axes; 13 `readings`
/// is shorter than the layout's highest offset + 1 (never if some extent is 0); 10, with the
/// readings that are needed, `out` has fewer places than the remaining axes have positions; 15 the
/// extent along the axis is 0; 16 it is above 65,536. After a refusal `out` is as it was, and its
/// values stand in the first places of `values`; other places stay.
#[unsafe(no_mangle)]
pub extern "C" fn strided_means(
    layout: &Layout,
    axis: usize,
    readings: &[i32],
    out: &mut [i32],
    values: &mut Values,
) -> u8
    ensures answer { result ≡ number_after
        (means_of (model_of layout.now) axis (length readings.now) (length out.old)) }
    ensures written { out.new ≡ means_after
        (means_of (model_of layout.now) axis (length readings.now) (length out.old))
        (model_of layout.now) axis readings.now out.old }
    ensures values { places values.new ≡ written_after
        (means_of (model_of layout.now) axis (length readings.now) (length out.old))
        values.old }
{
    answer_with_count(means(layout, axis, readings, out), values)
}

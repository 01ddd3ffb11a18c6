//! Means of readings along one axis of a layout.
//!
//! The readings of a mean are summed whole, and the sum is divided once, halves away from zero. The
//! means stand in position order of the remaining axes: they are written row by row, a row being
//! the first of these axes. Nothing is allocated.
//!
//! `means` says that it is right: its answer and the output are what the definitions of `Means` say.
//! What those mean is `MeansClaims`, which `means_hold` promises.
#![tactic(auto)]

mod rows;
mod sums;

ghost use Rattle.std.specs.Prelude.{◌≡◌, ◌≤◌, ◌<◌, length, IfOk};
ghost use Rattle.view.specs.Answers.{outcome_of, outcome_by};
ghost use Rattle.view.specs.Count.{count_of};
ghost use Rattle.view.specs.Model.{model_of};
ghost use Rattle.means.specs.Means.{remaining, first_means, extent_rule, means_of, means_after};
ghost use Rattle.means.specs.MeansClaims.{MeansClaims, MeansWritten};
ghost use Rattle.means.specs.MeansCases.{MeansCases};

use positions::strides_fit;
use rows::write_all;
use view::count::element_count;
use view::layout::{Layout, Refusal};

/// The most readings of one mean.
const MOST_ALONG: u64 = 65536;

/// The layout of the axes but one.
fn remaining(layout: &Layout, axis: usize) -> Layout
    requires few { layout.now.rank ≤ 16 }
    requires in_rank { axis < layout.now.rank }
    ensures model { model_of result ≡ remaining (model_of layout.now) axis }
    ensures few { result.rank ≤ 16 }
{
    let mut rest = *layout;
    rest.axes.copy_within(axis + 1..layout.rank, axis);
    rest.rank -= 1;
    rest
}

/// How many positions a layout has; or refusal 8, if 64 bits do not hold their number.
#[tactic(auto, using(crate::proofs::CountedLaws::counted))]
fn position_count(layout: &Layout) -> Result<usize, Refusal>
    requires { layout.now.rank ≤ 16 }
    ensures { outcome_of result ≡ count_of (model_of layout.now).axes }
{
    Ok(element_count(layout.axes())? as usize)
}

/// Refusal 15 for no reading along the axis, 16 for too many.
#[tactic(auto, using(crate::proofs::CountedLaws::extent_none, crate::proofs::CountedLaws::extent_fits, crate::proofs::CountedLaws::extent_long))]
fn extent_refusal(extent: u64) -> Result<(), Refusal>
    ensures { outcome_of result ≡ extent_rule extent }
{
    match extent {
        0 => Err(Refusal::EmptyAxis),
        1..=MOST_ALONG => Ok(()),
        _ => Err(Refusal::LongAxis),
    }
}

/// The layout of the remaining axes, and how many positions it has; or the refusal.
#[tactic(auto, using(crate::proofs::CountedLaws::not_handed, crate::proofs::CountedLaws::few, crate::proofs::CountedLaws::bad_axis, crate::proofs::CountedLaws::too_full, crate::proofs::CountedLaws::short, crate::proofs::CountedLaws::no_room, crate::proofs::CountedLaws::bad_extent, crate::proofs::CountedLaws::good_extent))]
fn counted_remaining(
    layout: &Layout,
    axis: usize,
    readings: usize,
    room: usize,
) -> Result<(Layout, usize), Refusal>
    ensures answer { outcome_by (λ both. both.1) result ≡ means_of (model_of layout.now) axis readings room }
    ensures rest { IfOk result (λ both. model_of both.0 ≡ remaining (model_of layout.now) axis) }
{
    let reach = layout.reach()?;
    if layout.rank <= axis {
        return Err(Refusal::BadAxis(axis, layout.rank));
    }
    let rest = remaining(layout, axis);
    let count = position_count(&rest)?;
    if reach.is_past(readings) {
        return Err(Refusal::ShortReadings);
    }
    if room < count {
        return Err(Refusal::ShortOutput(count));
    }
    extent_refusal(layout.axes()[axis].extent)?;
    Ok((rest, count))
}

/// Writes the mean at each position of the remaining axes, of which there is at least one.
fn write_means(layout: &Layout, axis: usize, readings: &[i32], rest: &Layout, out: &mut [i32])
    requires some { 0 < length out.old }
    requires rest { model_of rest.now ≡ remaining (model_of layout.now) axis }
    requires written { MeansWritten (model_of layout.now) axis (length readings.now) (length out.old) (length out.old) }
    ensures { out.new ≡ first_means (model_of layout.now) axis readings.now (length out.old) }
{
    let axes = layout.axes();
    strides_fit(axes);
    let start = layout.offset.0.cast_unsigned();
    write_all(readings, axes[axis], rest.axes(), start, out);
}

/// The mean of the readings along an axis, for each position of the remaining axes: those of the
/// layout but this one, in their order. The means stand in position order at the front of `out`,
/// and the answer is how many there are; what is behind them stays.
///
/// A mean is a whole number in the unit of the readings: they are summed whole, and the sum is
/// divided once, to the nearest, halves away from zero.
///
/// Refusals, the first that applies: 1 more than 16 axes; 3 an offset is not accepted; 5, with the
/// axis and the rank, there is no such axis; 8 more than 2^64 - 1 positions of the remaining axes;
/// 13 fewer readings than the highest offset + 1 (an empty layout needs none); 10, with how many
/// means there are, `out` is shorter; 15 the extent along the axis is 0; 16 it is above 65,536.
/// A refusal leaves `out`.
#[tactic(auto, using(crate::proofs::CallLaws::fits_out, crate::proofs::CallLaws::front_length, crate::proofs::CallLaws::front_some, crate::proofs::CallLaws::front_suits, crate::proofs::CallLaws::front_written, crate::proofs::CallLaws::none_written), unfolding(crate::specs::Means::means_after))]
pub fn means(
    layout: &Layout,
    axis: usize,
    readings: &[i32],
    out: &mut [i32],
) -> Result<usize, Refusal>
    ensures answer { outcome_of result ≡ means_of (model_of layout.now) axis (length readings.now) (length out.old) }
    ensures written { out.new ≡ means_after (outcome_of result) (model_of layout.now) axis readings.now out.old }
{
    let (rest, count) = counted_remaining(layout, axis, readings.len(), out.len())?;
    if 0 < count {
        write_means(layout, axis, readings, &rest, &mut out[..count]);
    }
    Ok(count)
}

/// Does nothing, and promises what is claimed of means, and means that are computed: the check wants
/// the proof.
#[tactic(auto, using(crate::proofs::MeansAnswers::means_claims, crate::proofs::ComputedMeans::means_cases))]
pub fn means_hold()
    ensures means { MeansClaims }
    ensures cases { MeansCases }
{}

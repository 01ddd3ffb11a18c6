//! Check-in, the views and the normal form, in the layout that is lent.
ghost use Rattle.std.specs.Prelude.{◌≡◌, ◌≢◌, drop};
ghost use Rattle.specification.specs.CheckIn.{check_in};
ghost use Rattle.specification.specs.Normal.{normal_form};
ghost use Rattle.specification.specs.Views.{permute, pairs_of, diagonal_view, broadcast};
ghost use Rattle.view.specs.Answers.{outcome_of};
ghost use Rattle.view.specs.Model.{model_of, checked_into};
ghost use Rattle.strided.specs.Crossing.{number_after, places, values_after, result_after};

use crate::crossing::{Values, answer_number, answer_with_values};
use record::normal::normal_form;
use view::layout::Layout;

/// Check-in of the length and the offset (both in readings) that stand in the layout, with the
/// axes of two lists: 0, and rank and axes stand in it too.
///
/// Refusals: 1 more than 16 entries; 2 the lists differ in length; 3 an extent, a span or an
/// offset is out of range, or an offset is outside the length (never if some extent is 0).
/// After a refusal the layout is as it was. Places past the rank always stay.
#[unsafe(no_mangle)]
pub extern "C" fn strided_new(layout: &mut Layout, extents: &[u64], strides: &[i64]) -> u8
    ensures answer { result ≡ number_after
        (check_in layout.old.len layout.old.offset.0 extents.now strides.now) }
    ensures layout { model_of layout.new ≡ (checked_into (model_of layout.old)
        (check_in layout.old.len layout.old.offset.0 extents.now strides.now)).layout }
    ensures kept { result ≢ 0 → layout.new ≡ layout.old }
    ensures past { drop layout.new.rank layout.new.axes ≡ drop layout.new.rank layout.old.axes }
{
    answer_number(layout.check_in(layout.len, layout.offset, extents, strides))
}

/// The axes in the order of a list of their numbers: 0, and the layout is the one after it.
///
/// Refusals: 1 more than 16 axes or entries; 3 the layout is not accepted; 4, with the entries and
/// the rank, as many entries as axes are wanted; 5, with the entry and the rank, an entry is
/// outside the rank or was there before. After a refusal the layout is as it was, and its values
/// stand in the first places of `values`; other places stay. Places past the rank always stay.
#[unsafe(no_mangle)]
pub extern "C" fn strided_permute(layout: &mut Layout, order: &[usize], values: &mut Values) -> u8
    ensures answer { result ≡ number_after (permute (model_of layout.old) order.now).answer }
    ensures layout { model_of layout.new ≡ (permute (model_of layout.old) order.now).layout }
    ensures kept { result ≢ 0 → layout.new ≡ layout.old }
    ensures past { drop layout.new.rank layout.new.axes ≡ drop layout.new.rank layout.old.axes }
    ensures values { places values.new ≡
        values_after (permute (model_of layout.old) order.now).answer values.old }
{
    answer_with_values(layout.permute_in_place(order), values)
}

/// Tied axes as one axis; two numbers of the list are a pair, and an odd last one is passed over:
/// 0, and the layout is the one after it.
///
/// Refusals: 1 more than 16 axes; 3 the layout is not accepted; 5, with the larger axis and the
/// rank, a pair is outside the rank; 5, with the axis and the rank, a pair names one axis twice;
/// 3 a sum of strides or the new layout is out of range. After a refusal the layout is as it was,
/// and its values stand in the first places of `values`; other places stay. Places past the new
/// rank always stay.
#[unsafe(no_mangle)]
pub extern "C" fn strided_diagonal_view(
    layout: &mut Layout,
    pairs: &[usize],
    values: &mut Values,
) -> u8
    ensures answer { result ≡
        number_after (diagonal_view (model_of layout.old) (pairs_of pairs.now)).answer }
    ensures layout { model_of layout.new ≡
        (diagonal_view (model_of layout.old) (pairs_of pairs.now)).layout }
    ensures kept { result ≢ 0 → layout.new ≡ layout.old }
    ensures past { drop layout.new.rank layout.new.axes ≡ drop layout.new.rank layout.old.axes }
    ensures values { places values.new ≡
        values_after (diagonal_view (model_of layout.old) (pairs_of pairs.now)).answer values.old }
{
    answer_with_values(layout.diagonal_by_numbers(pairs), values)
}

/// The layout stretched to target extents, one for each axis: 0, and the layout is the one after
/// it. An axis whose extent is its target keeps its stride; another gets the target and stride 0.
///
/// Refusals: 1 more than 16 axes or targets; 3 the layout is not accepted; 4, with the rank and the
/// targets, as many targets as axes are wanted; 6, with the axis, an extent is neither its target
/// nor 1. After a refusal the layout is as it was, and its values stand in the first places of
/// `values`; other places stay. Places past the rank always stay.
#[unsafe(no_mangle)]
pub extern "C" fn strided_broadcast(layout: &mut Layout, targets: &[u64], values: &mut Values) -> u8
    ensures answer { result ≡ number_after (broadcast (model_of layout.old) targets.now).answer }
    ensures layout { model_of layout.new ≡ (broadcast (model_of layout.old) targets.now).layout }
    ensures kept { result ≢ 0 → layout.new ≡ layout.old }
    ensures past { drop layout.new.rank layout.new.axes ≡ drop layout.new.rank layout.old.axes }
    ensures values { places values.new ≡
        values_after (broadcast (model_of layout.old) targets.now).answer values.old }
{
    answer_with_values(layout.broadcast_in_place(targets), values)
}

/// The normal form, with axes of extent 1 dropped and neighbours merged, and one axis of extent 0
/// if there is no position: 0, and the layout is it; its length stays.
///
/// Refusals: 1 more than 16 axes; 3 the layout is not accepted; 8 more than 2^64 - 1 positions.
/// After a refusal the layout is as it was.
#[unsafe(no_mangle)]
pub extern "C" fn strided_normal_form(layout: &mut Layout) -> u8
    ensures answer { result ≡ number_after (normal_form (model_of layout.old)) }
    ensures layout { model_of layout.new ≡
        result_after (normal_form (model_of layout.old)) (model_of layout.old) }
    ensures kept { result ≢ 0 → layout.new ≡ layout.old }
{
    match normal_form(layout) {
        Ok(form) => {
            *layout = form;
            0
        }
        Err(why) => why.number(),
    }
}

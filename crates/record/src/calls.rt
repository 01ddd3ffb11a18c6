//! Lists of calls: views of a layout, one after another.
ghost use Rattle.std.specs.Prelude.{◌≡◌, drop, OnErr};
ghost use Rattle.specification.specs.Calls.{diagonal};
ghost use Rattle.specification.specs.Views.{pairs_of};
ghost use Rattle.record.specs.Calls.{call_in, RunTo};
ghost use Rattle.record.specs.Chain.{CallMade};

use view::diagonal::AxisPair;
use view::layout::{Layout, Refusal, Viewed};

/// One call of a list, with its arguments.
#[derive(Clone, Copy, Debug, PartialEq, Eq)]
pub enum Call<'a> {
    /// The old number of each axis, in their new order.
    Permute(&'a [usize]),
    /// The axes that are fused, pair by pair.
    DiagonalView(&'a [AxisPair]),
    /// The new extent of each axis.
    Broadcast(&'a [u64]),
}

/// What a call answers, and the layout after it: as it was if the call is refused.
#[tactic(auto, using(crate::proofs::ChainLaws::chain_claims))]
pub fn after(layout: Layout, call: Call<'_>) -> Viewed
    ensures { CallMade layout (call_in call.entry) result.answer result.layout }
{
    match call {
        Call::Permute(order) => layout.permute(order),
        Call::DiagonalView(pairs) => layout.diagonal_view(pairs),
        Call::Broadcast(targets) => layout.broadcast(targets),
    }
}

/// Makes a call of a layout that is lent. A refused call leaves every word of it.
#[tactic(auto, using(crate::proofs::ChainLaws::chain_claims))]
pub fn make_in_place(layout: &mut Layout, call: Call<'_>) -> Result<(), Refusal>
    ensures made { CallMade layout.old (call_in call.entry) result layout.new }
    ensures kept { OnErr result (layout.new ≡ layout.old) }
    ensures past { drop layout.new.rank layout.new.axes ≡ drop layout.new.rank layout.old.axes }
{
    match call {
        Call::Permute(order) => layout.permute_in_place(order),
        Call::DiagonalView(pairs) => layout.diagonal_in_place(pairs),
        Call::Broadcast(targets) => layout.broadcast_in_place(targets),
    }
}

/// Makes the call `DiagonalView` of a layout that is lent, with its pairs in flat numbers; an odd
/// last number is passed over. A refused call leaves every word of the layout.
#[tactic(auto, using(crate::proofs::ChainLaws::chain_claims))]
pub fn fuse_by_numbers(layout: &mut Layout, pairs: &[usize]) -> Result<(), Refusal>
    ensures made { CallMade layout.old (diagonal (pairs_of pairs.now)) result layout.new }
    ensures kept { OnErr result (layout.new ≡ layout.old) }
    ensures past { drop layout.new.rank layout.new.axes ≡ drop layout.new.rank layout.old.axes }
{
    layout.diagonal_by_numbers(pairs)
}

/// The layout after a list of calls, each on the layout after the last; a call that is refused
/// leaves it.
#[tactic(auto, using(crate::proofs::ChainLaws::none_left))]
pub fn run(start: Layout, calls: &[Call<'_>]) -> Layout
    ensures { RunTo start calls.now result }
{
    let mut layout = start;
    for call in calls {
        layout = after(layout, *call).layout;
    }
    layout
}

//! Do two positions of a block have one sum, if the block has two active axes, or three and more?
//!
//! Two axes collide exactly if the smallest solution of x times s1 = y times s2 is in reach of both: a greatest common divisor
//! and two divisions (docs/WHY.md, section 6).
//!
//! Of three and more the two longest are set apart, and the difference vectors of the others are walked (crate `walk`): some
//! vector is completed by the two, or none is. The work goes by the others alone, at most `half` vectors, and `half` has a budget:
//! past it nothing is walked, and the answer is `None` (docs/WHY.md, sections 7 and 8).
//!
//! `two_axis_block_is_injective` says that it is the definitions' `two_distinct`, `search_block` that its answer is their plan
//! `by_many`; that this plan is true of the positions is `VerdictClaims.true_answer` of `specification`.
#![tactic(auto)]

ghost use Rattle.std.specs.Prelude.{◌≡◌, ◌<◌, ◌≤◌, length, IfSome, IfNone};
ghost use Rattle.std.specs.List.{All};
ghost use Rattle.integer.specs.Gcd.{gcd};
ghost use Rattle.specification.specs.Tests.{sort_by};
ghost use Rattle.specification.specs.Search.{half, two_distinct};
ghost use Rattle.specification.specs.Verdict.{longer, by_many, plan_past_search, searched};
ghost use Rattle.walk.specs.Underway.{IsCountable};
ghost use Rattle.search.specs.Block.{IsSearchable, searched_plan, block_plan};
ghost use Rattle.search.specs.SetUp.{IsParted};

mod set_up;

use axis::ActiveAxis;
use differences::boxes::box_within;
use sorting::{sort_by_axis, sort_by_extent};
use walk::Walk;

// The largest box that is searched: half is then 4,194,304, the budget.
const LARGEST_BOX: u64 = 8388609;

/// What the search answers within its budget, with the number of vectors looked at.
#[derive(Clone, Copy, Debug, PartialEq, Eq)]
pub enum Searched {
    /// Some vector is completed: the last that was looked at, or the two set apart collide alone, and the number is 0.
    Repeated(u64),
    /// None is.
    Distinct(u64),
}

// The rule for two axes, with the greatest common divisor g of the strides: whether axes of extents d1, d2 and strides s1, s2
// tell their index pairs apart. A collision is a difference of at least s2/g of the one and of s1/g of the other, and takes
// both.
#[tactic(auto, using(crate::proofs::Coupling::quotients), unfolding(specification::specs::Search::two_distinct))]
fn apart_by_quotients(a: ActiveAxis, b: ActiveAxis, g: u64) -> bool
    requires moves { 0 < a.stride }
    requires divisor { g ≡ gcd a.stride b.stride }
    ensures { result ≡ two_distinct a b }
{
    a.extent <= b.stride / g || b.extent <= a.stride / g
}

/// Whether two axes tell their index pairs apart.
pub fn two_axis_block_is_injective(a: ActiveAxis, b: ActiveAxis) -> bool
    requires { 0 < a.stride }
    ensures { result ≡ two_distinct a b }
{
    let g = integer::gcd(a.stride, b.stride);
    apart_by_quotients(a, b, g)
}

// Half, if it is within the budget.
#[tactic(auto, using(crate::proofs::Coupling::halves))]
fn half_within(others: &[ActiveAxis]) -> Option<u64>
    requires { All IsCountable others.now }
    ensures within { IfSome result (λ h. (h ≡ half others.now) × (h ≤ 4194304)) }
    ensures past { IfNone result (4194304 < half others.now) }
{
    let boxed = box_within(others, LARGEST_BOX)?;
    Some(boxed / 2)
}

// The search with the two set apart: the budget, the two alone, then the walk over the others.
#[tactic(auto, using(crate::proofs::Turned::walks), unfolding(specification::specs::Search::span_sum, specification::specs::Verdict::searched, specification::specs::Verdict::placed))]
fn search_two(a: ActiveAxis, b: ActiveAxis, others: &[ActiveAxis]) -> Option<Searched>
    requires { IsParted a b others.now }
    ensures within { IfSome result (λ s. (half others.now ≤ 4194304) × (searched_plan s ≡ searched a b others.now)) }
    ensures past { IfNone result (4194304 < half others.now) }
{
    let half = half_within(others)?;
    let g = integer::gcd(a.stride, b.stride);
    if !apart_by_quotients(a, b, g) {
        return Some(Searched::Repeated(0));
    }
    let two = set_up::couple(a, b, g);
    let mut walk = Walk::new(two, others);
    Some(match walk.run_to(half) {
        Some(count) => Searched::Repeated(count),
        None => Searched::Distinct(half),
    })
}

/// The search on a block of two or more axes: the two longest are set apart, ties to the lower axis, and the differences of the
/// others are searched, the lowest axis the lowest digit. `None` past the budget.
pub fn search_block(axes: &[ActiveAxis]) -> Option<Searched>
    requires many { 1 < length axes.now }
    requires searchable { IsSearchable axes.now }
    ensures { block_plan result (plan_past_search axes.now) ≡ by_many axes.now (sort_by longer axes.now) }
{
    let mut room = [ActiveAxis::NONE; 16];
    let block = &mut room[..axes.len()];
    block.copy_from_slice(axes);
    sort_by_extent(block);
    let a = block[0];
    let b = block[1];
    let others = &mut block[2..];
    sort_by_axis(others);
    search_two(a, b, others)
}

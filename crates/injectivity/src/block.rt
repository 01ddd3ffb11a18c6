//! The block of axes whose spans reach into each other, and its verdict: crowded, of two axes,
//! searched, enumerated.
ghost use Rattle.std.specs.Prelude.{[], ◌≡◌, ◌↔◌, ◌-◌, ◌^◌, ◌<◌, ◌≤◌, length, IsTrue, IfSome, IfNone};
ghost use Rattle.specification.specs.Tests.{sort_by};
ghost use Rattle.specification.specs.Search.{total as total_of, span_sum};
ghost use Rattle.specification.specs.Verdict.{up_to_last, enumerated, longer, plan_past_search, by_many, by_block_size, carry_out};
ghost use Rattle.search.specs.Block.{IsSearchable, block_plan};
ghost use Rattle.injectivity.specs.Judgement.{IsJudgedAs};

use crate::Judgement;
use axis::ActiveAxis;
use enumeration::enumerate;
use search::{search_block, two_axis_block_is_injective};
use std::marker::Model;
use view::layout::Refusal;

/// The largest total that is enumerated. It bounds the words needed, by 16,777,217.
const EXACT_BLOCK_BUDGET: u64 = 16777216;

/// The axes of a block, the product of their extents, and the sum of their absolute spans.
/// A contract sees the axes.
#[derive(Drop)]
pub struct InterleavedBlock<'a> {
    axes: &'a [ActiveAxis],
    total: u64,
    span: u64,
}

impl<'a> Model for InterleavedBlock<'a> {
    ghost use Rattle.std.specs.Prelude.{List};
    ghost use Rattle.specification.specs.Search.{ActiveAxis};

    ghost Value = { List ActiveAxis };

    ghost view = { λ block. block.axes.now };

    ghost use Rattle.injectivity.specs.Block.{IsJudgeable};

    ghost invariant = { IsJudgeable };
}

impl InterleavedBlock<'_> {
    /// Whether there is a sum for each position: sums go from 0 to the span, and of more positions
    /// some two share one.
    fn may_be_injective(&self) -> bool
        ensures { IsTrue result ↔ (total_of self.now - 1 ≤ span_sum self.now) }
    {
        self.total - 1 <= self.span
    }

    /// The enumeration, within its budget.
    fn offsets_unique(&self, scratch: &mut [u64]) -> Result<Judgement, Refusal>
        ensures { IsJudgedAs (carry_out (length scratch.old) (enumerated self.now))
            scratch.old scratch.new result }
    {
        match enumerate(self.axes, self.total, self.span, scratch) {
            Ok(true) => Ok(Judgement::Distinct(0)),
            Ok(false) => Ok(Judgement::Repeated(0)),
            Err(words) => Err(Refusal::ShortScratch(words as usize)),
        }
    }

    /// Past the budget of the search.
    #[tactic(auto, unfolding(specification::specs::Verdict::plan_past_search, specification::specs::Verdict::carry_out))]
    fn judge_past_search(&self, scratch: &mut [u64]) -> Result<Judgement, Refusal>
        ensures { IsJudgedAs (carry_out (length scratch.old) (plan_past_search self.now))
            scratch.old scratch.new result }
    {
        if self.total <= EXACT_BLOCK_BUDGET {
            self.offsets_unique(scratch)
        } else {
            Ok(Judgement::Undecided)
        }
    }

    /// The search, and what is past it.
    #[tactic(auto, unfolding(specification::specs::Verdict::carry_out))]
    fn judge_many(&self, scratch: &mut [u64]) -> Result<Judgement, Refusal>
        ensures { IsJudgedAs
            (carry_out (length scratch.old) (by_many self.now (sort_by longer self.now)))
            scratch.old scratch.new result }
    {
        match search_block(self.axes) {
            Some(searched) => Ok(searched.into()),
            None => self.judge_past_search(scratch),
        }
    }

    /// The block judged. The error is that the enumeration needs more words of scratch, with their
    /// number; then every word stays.
    #[tactic(auto, using(crate::proofs::JudgeLaws::plans), unfolding(specification::specs::Verdict::carry_out))]
    pub fn judge(&self, scratch: &mut [u64]) -> Result<Judgement, Refusal>
        ensures { IsJudgedAs (carry_out (length scratch.old) (by_block_size self.now))
            scratch.old scratch.new result }
    {
        if !self.may_be_injective() {
            return Ok(Judgement::Repeated(0));
        }
        let &[a, b] = self.axes else {
            return self.judge_many(scratch);
        };
        if two_axis_block_is_injective(a, b) {
            Ok(Judgement::Distinct(0))
        } else {
            Ok(Judgement::Repeated(0))
        }
    }
}

/// The first of sorted axes: how many, the product of their extents, and the sum of their absolute
/// spans.
#[derive(Clone, Copy)]
struct Front {
    len: usize,
    total: u64,
    span: u64,
}

/// Of sorted axes, those up to the last that the ones before it reach: its absolute stride is at
/// most the sum of their absolute spans. None, if every axis is separated.
#[tactic(auto, using(crate::proofs::CoverLaws::passing, crate::proofs::CoverLaws::in_front))]
pub fn interleaved_block(sorted: &[ActiveAxis]) -> Option<InterleavedBlock<'_>>
    requires searchable { IsSearchable sorted.now }
    requires total_fits { total_of sorted.now < 2 ^ 64 }
    ensures some { IfSome result (λ block. block ≡ up_to_last 0 sorted.now) }
    ensures none { IfNone result (up_to_last 0 sorted.now ≡ []) }
{
    let mut block = Front {
        len: 0,
        total: 1,
        span: 0,
    };
    let mut total: u64 = 1;
    let mut span: u64 = 0;
    for (i, axis) in sorted.iter().enumerate() {
        let separated = span < axis.stride;
        total *= axis.extent;
        span += (axis.extent - 1) * axis.stride;
        if separated {
            continue;
        }
        block = Front {
            len: i + 1,
            total,
            span,
        };
    }
    if block.len == 0 {
        return None;
    }
    Some(InterleavedBlock {
        axes: &sorted[..block.len],
        total: block.total,
        span: block.span,
    })
}

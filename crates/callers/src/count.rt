//! The verdict with its count, and what the count tells.
ghost use Rattle.std.specs.Prelude.{◌≡◌, ◌≤◌, length, IsOk, IfOk};
ghost use Rattle.specification.specs.CountClaims.{Searches};
ghost use Rattle.injectivity.specs.Judgement.{count_told};
ghost use Rattle.injectivity.specs.Meaning.{NoneDue};
ghost use Rattle.callers.specs.Counts.{SearchTells};
ghost use Rattle.callers.specs.Verdicts.{IsTrueOf};

use axis::Axis;
use injectivity::{Judgement, is_injective_axes};
use specification::verdicts_hold;
use view::layout::Refusal;

/// The verdict of axes with its count. Of axes that come to the search, the two largest of the block are set apart: `Repeated(0)` is
/// that these two alone collide, `Repeated(n)` that the first difference vector of the others which they complete is the n-th, and
/// `Distinct(n)` that they complete none of the n that are looked at; no scratch is asked for. Of other axes the count is 0.
#[tactic(auto, using(crate::proofs::Verdicts::told_true, crate::proofs::Verdicts::answered))]
pub fn verdict_with_count(axes: &[Axis], scratch: &mut [u64]) -> Result<Judgement, Refusal>
    ensures told { IfOk result (λ judgement. IsTrueOf axes.now judgement) }
    ensures searched { length axes.now ≤ 16 → Searches axes.now → SearchTells axes.now result }
    ensures elsewhere { ¬ (Searches axes.now) → IfOk result (λ judgement. count_told judgement ≡ 0) }
    ensures answered { NoneDue axes.now (length scratch.old) → IsOk result }
    ensures unrefused { length axes.now ≤ 16 → Searches axes.now → IsOk result }
{
    verdicts_hold();
    is_injective_axes(axes, scratch)
}

//! Whether a caller may write through a view, or through two lists.
ghost use Rattle.std.specs.Prelude.{◌≡◌, ◌↔◌, map, length, IsTrue, IsOk, IfOk};
ghost use Rattle.specification.specs.Axis.{axes_of_lists, SharesOffset};
ghost use Rattle.specification.specs.Calls.{end_of};
ghost use Rattle.specification.specs.Verdict.{BothBudgetsPassed};
ghost use Rattle.view.specs.Model.{model_of};
ghost use Rattle.injectivity.specs.Meaning.{IsFitting, NoneDue};
ghost use Rattle.record.specs.Calls.{call_in};
ghost use Rattle.callers.specs.Sheets.{sheet_of, IsFit};
ghost use Rattle.callers.specs.Verdicts.{IsTrueOf};

use crate::start::Sheet;
use injectivity::{Judgement, is_injective_layout, judge_layout};
use record::calls::{Call, run};
use view::layout::{Layout, Refusal};

/// The view of a sheet after a list of calls, and whether it may be written through: `Distinct` if no two positions share a cell,
/// `Repeated` if two do, `Undecided` if both budgets are passed.
#[tactic(auto, using(crate::proofs::Verdicts::told_true, crate::proofs::Verdicts::answered))]
pub fn may_write(
    sheet: Sheet<'_>,
    calls: &[Call<'_>],
    scratch: &mut [u64],
) -> Result<(Layout, Judgement), Refusal>
    ensures view { IfOk result (λ answer. model_of answer.0
        ≡ end_of (sheet_of sheet.entry) (map call_in calls.now)) }
    ensures told { IfOk result (λ answer. IsTrueOf (model_of answer.0).axes answer.1) }
    ensures answered { IsFit sheet.entry
        → NoneDue (end_of (sheet_of sheet.entry) (map call_in calls.now)).axes (length scratch.old)
        → IsOk result }
{
    let view = run(sheet.checked_in()?, calls);
    let judgement = judge_layout(&view, scratch)?;
    Ok((view, judgement))
}

/// Whether no two positions of two lists share a cell, as far as the budgets reach.
#[tactic(auto, using(crate::proofs::Verdicts::lists_told, crate::proofs::Verdicts::lists_answered))]
pub fn stand_apart(extents: &[u64], strides: &[i64], scratch: &mut [u64]) -> Result<bool, Refusal>
    ensures told { IfOk result (λ apart. IsTrue apart
        ↔ (¬ (BothBudgetsPassed (axes_of_lists extents.now strides.now)))
        × (¬ (SharesOffset (axes_of_lists extents.now strides.now)))) }
    ensures answered { IsFitting extents.now strides.now
        → NoneDue (axes_of_lists extents.now strides.now) (length scratch.old) → IsOk result }
{
    match is_injective_layout(extents, strides, scratch)? {
        Judgement::Distinct(_) => Ok(true),
        Judgement::Repeated(_) | Judgement::Undecided => Ok(false),
    }
}

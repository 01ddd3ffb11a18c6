//! Whether no two positions of a layout share an offset, said of its extents and strides.
//!
//! The axes are sorted by absolute stride. An axis whose stride is above all spans before it is
//! separated: no step along it is undone by those. Behind the last that is not, all drop out; what
//! is left is the block, and it alone decides. More positions than sums is Repeated; two axes are
//! settled by their greatest common divisor; more are searched for a difference that adds up to 0,
//! or enumerated in the caller's scratch; past both budgets the answer is Undecided.
//! Of axes that stand separated as they are, or from the last on, the answer is found at sight.
//!
//! Nothing is allocated. A search looks at no more than 2^22 differences; an enumeration is of no
//! more than 2^24 positions and asks for no more than 2^24 + 1 words (`enough_words` in
//! `JudgementClaims`).
//!
//! The calls judge a layout, axes that are lent, or two lists. Each promises the theorem: `means`
//! says exactly when each answer is given (`Means`, in specs/Meaning.antt), and `judged` that
//! answer, count and scratch are those of a definition: `axes_judged`, of two lists `verdict`.
//! Why it is right: docs/WHY.md, sections 1 to 9 and 11.
#![tactic(auto)]

mod active;
mod block;
mod inputs;
mod ordered;

ghost use Rattle.std.specs.Prelude.{◌≤◌, length};
ghost use Rattle.specification.specs.Verdict.{judge as judged, verdict};
ghost use Rattle.view.specs.Model.{model_of};
ghost use Rattle.injectivity.specs.Inputs.{IsLeftToBlock};
ghost use Rattle.injectivity.specs.Judgement.{axes_judged, IsJudgedAs};
ghost use Rattle.injectivity.specs.Meaning.{Means, MeansOfLists, JudgementClaims};

use active::gather_active;
use axis::{ActiveAxis, Axis};
use block::interleaved_block;
use inputs::validate_injective_layout_inputs;
use ordered::{is_separated_by_column, is_separated_by_row};
use search::Searched;
use sorting::sort_by_stride;
use std::fmt;
use view::axes::Lists;
use view::layout::{Layout, MOST_AXES, Refusal};

/// The verdict, with the number of difference vectors looked at.
#[derive(Clone, Copy, Debug, PartialEq, Eq)]
pub enum Judgement {
    /// No two positions share an offset.
    Distinct(u64),
    /// Some two positions share one.
    Repeated(u64),
    /// The search and the enumeration are both past their budgets.
    Undecided,
}

impl Judgement {
    ghost use Rattle.std.specs.Prelude.{◌≡◌};
    ghost use Rattle.injectivity.specs.Judgement.{number_told, count_told};

    /// Its number in a record and at the border to C: 1 to 3, in the order above.
    pub fn number(self) -> u8
        ensures { result ≡ number_told self }
    {
        match self {
            Judgement::Distinct(_) => 1,
            Judgement::Repeated(_) => 2,
            Judgement::Undecided => 3,
        }
    }

    /// How many difference vectors were looked at; 0 if that is not told.
    pub fn count(self) -> u64
        ensures { result ≡ count_told self }
    {
        match self {
            Judgement::Distinct(count) | Judgement::Repeated(count) => count,
            Judgement::Undecided => 0,
        }
    }
}

impl From<Searched> for Judgement {
    ghost use Rattle.std.specs.Prelude.{◌≡◌};
    ghost use Rattle.injectivity.specs.Block.{judgement_of};

    ghost from_gives = { λ searched judgement. judgement ≡ judgement_of searched };

    fn from(searched: Searched) -> Self {
        match searched {
            Searched::Repeated(count) => Judgement::Repeated(count),
            Searched::Distinct(count) => Judgement::Distinct(count),
        }
    }
}

impl fmt::Display for Judgement {
    ghost use Rattle.std.specs.Prelude.{Some};
    ghost use Rattle.injectivity.specs.Text.{judgement_text};

    ghost output = { λ judgement. Some (judgement_text judgement) };

    fn fmt<W: fmt::Write>(&self, f: &mut fmt::Formatter<W>) -> fmt::Result {
        match self {
            Judgement::Distinct(count) => write!(f, "distinct {count}"),
            Judgement::Repeated(count) => write!(f, "repeated {count}"),
            Judgement::Undecided => f.write_str("undecided 0"),
        }
    }
}

/// The verdict of a layout: that of its axes. Offset and buffer length are not looked at, so an
/// offset outside the buffer is not refused. Refusals, and what stays of the scratch, are those of
/// `is_injective_axes`.
#[tactic(auto, using(crate::proofs::PlanLaws::lent, crate::proofs::MeaningProved::told_means, view::proofs::AxesLaws::length_first_axes))]
pub fn judge_layout(layout: &Layout, scratch: &mut [u64]) -> Result<Judgement, Refusal>
    ensures judged { IsJudgedAs (axes_judged (model_of layout.now).axes (length scratch.old))
        scratch.old scratch.new result }
    ensures means { Means (model_of layout.now).axes scratch.old scratch.new result }
{
    if MOST_AXES < layout.rank {
        return Err(Refusal::TooManyAxes);
    }
    judge_axes(layout.axes(), scratch)
}

/// The verdict of axes that are lent. Refusal 1 is more than 16 axes, 8 more than 2^64 - 1
/// positions, 3 an extent, a stride, a span or a sum of spans out of range, 9 a scratch of fewer
/// words than the enumeration needs. Only the enumeration works in the scratch; the words past
/// those that it needs stay, and a refusal leaves them all.
#[tactic(auto, using(crate::proofs::PlanLaws::lent, crate::proofs::MeaningProved::told_means))]
pub fn is_injective_axes(axes: &[Axis], scratch: &mut [u64]) -> Result<Judgement, Refusal>
    ensures judged { IsJudgedAs (axes_judged axes.now (length scratch.old))
        scratch.old scratch.new result }
    ensures means { Means axes.now scratch.old scratch.new result }
{
    if MOST_AXES < axes.len() {
        return Err(Refusal::TooManyAxes);
    }
    judge_axes(axes, scratch)
}

/// The verdict of two lists: refusal 1 for more than 16 entries, 2 for lengths that differ, then
/// the verdict of the axes that they are.
#[tactic(auto, using(crate::proofs::PlanLaws::lists, view::proofs::ListsLaws::stored_taken, crate::proofs::MeaningProved::lists_told_mean))]
pub fn is_injective_layout(
    extents: &[u64],
    strides: &[i64],
    scratch: &mut [u64],
) -> Result<Judgement, Refusal>
    ensures judged { IsJudgedAs (verdict extents.now strides.now (length scratch.old))
        scratch.old scratch.new result }
    ensures means { MeansOfLists extents.now strides.now scratch.old scratch.new result }
{
    let lists = Lists::new(extents, strides)?;
    let mut room = [Axis::NONE; 16];
    lists.store(&mut room);
    judge_axes(&room[..extents.len()], scratch)
}

/// The verdict of at most 16 axes. Of axes that stand separated as they are, or from the last on, it
/// is answered before anything else is asked.
#[tactic(auto, using(crate::proofs::PlanLaws::settled, crate::proofs::PlanLaws::turned_down, crate::proofs::OrderedLaws::in_order))]
fn judge_axes(axes: &[Axis], scratch: &mut [u64]) -> Result<Judgement, Refusal>
    requires { length axes.now ≤ 16 }
    ensures { IsJudgedAs (judged axes.now (length scratch.old)) scratch.old scratch.new result }
{
    if is_separated_by_column(axes) || is_separated_by_row(axes) {
        return Ok(Judgement::Distinct(0));
    }
    match validate_injective_layout_inputs(axes)? {
        Some(judgement) => Ok(judgement),
        None => judge_active_axes(axes, scratch),
    }
}

/// The verdict if the block decides. No block is Distinct: every axis is separated.
#[tactic(auto, using(crate::proofs::ReadyLaws::sorted_axes), unfolding(specification::specs::Verdict::carry_out))]
fn judge_active_axes(axes: &[Axis], scratch: &mut [u64]) -> Result<Judgement, Refusal>
    requires few { length axes.now ≤ 16 }
    requires left { IsLeftToBlock axes.now }
    ensures { IsJudgedAs (judged axes.now (length scratch.old)) scratch.old scratch.new result }
{
    let mut room = [ActiveAxis::NONE; 16];
    let count = gather_active(axes, &mut room);
    let active = &mut room[..count];
    sort_by_stride(active);
    let Some(block) = interleaved_block(active) else {
        return Ok(Judgement::Distinct(0));
    };
    block.judge(scratch)
}

/// Does nothing, and promises what the answers of a verdict say of the axes, and how many words of
/// scratch are enough for any: the check wants the proof.
#[tactic(auto, using(crate::proofs::MeaningProved::judgement_claims))]
pub fn judgements_hold()
    ensures judgement { JudgementClaims }
{}

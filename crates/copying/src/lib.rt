//! Copying readings from one buffer to another, each through a layout.
//!
//! The readings are copied sheet by sheet, a sheet being the first two axes, and each row of a sheet
//! as a run along the first. A step along a run is two additions, or the whole run is one copy of
//! memory if it is dense on both sides. Nothing is divided, and nothing is allocated.
//!
//! `copy` says that it is right: its answer, the destination and the scratch are what the
//! definitions of `Copy` say. What those mean is `CopyClaims`, which `copies_hold` promises.
#![tactic(auto)]

mod runs;
mod sheets;

ghost use Rattle.std.specs.Prelude.{◌≡◌, ◌≤◌, ◌<◌, length, nat_eq, IfOk};
ghost use Rattle.std.specs.Cmp.Lexicographic.{pointwise};
ghost use Rattle.specification.specs.Axis.{extents, positions};
ghost use Rattle.specification.specs.Layout.{rank};
ghost use Rattle.specification.specs.Verdict.{judge, freed_by, ScratchAfter};
ghost use Rattle.specification.specs.Readings.{cell_at};
ghost use Rattle.view.specs.Answers.{outcome_of, outcome_by};
ghost use Rattle.view.specs.Reach.{ends_of};
ghost use Rattle.view.specs.Readings.{layout_ends};
ghost use Rattle.view.specs.Model.{model_of};
ghost use Rattle.copying.specs.Copy.{copy_handed, distinct_judged, copy_refusal, copy_frees, copies, copy_after};
ghost use Rattle.copying.specs.CopyClaims.{CopyClaims, IsSuited};
ghost use Rattle.copying.specs.CopyCases.{CopyCases};

use injectivity::{Judgement, judge_layout};
use sheets::{Sheets, copy_sheets};
use view::bounds::Reach;
use view::layout::{Layout, Refusal};
use view::readings::reach_both;

/// Whether two layouts have the same extents, axis by axis.
fn have_same_extents(source: &Layout, destination: &Layout) -> bool
    requires few { source.now.rank ≤ 16 }
    requires few_too { destination.now.rank ≤ 16 }
    ensures { result
        ≡ pointwise nat_eq (extents (model_of source.now).axes) (extents (model_of destination.now).axes) }
{
    source.extents().eq(destination.extents())
}

/// The reach of the destination, unless something is refused before the verdict: 1 and 3 of either
/// layout, 12 for extents that differ, 13 for a buffer that is too short.
#[tactic(auto, using(crate::proofs::SuitedLaws::not_handed, crate::proofs::SuitedLaws::extents_differ, crate::proofs::SuitedLaws::source_short, crate::proofs::SuitedLaws::destination_short, crate::proofs::SuitedLaws::suited, crate::proofs::SuitedLaws::reach_is))]
fn suited_reach(
    source: &Layout,
    readings: usize,
    destination: &Layout,
    room: usize,
) -> Result<Reach, Refusal>
    ensures answer { outcome_by (λ reach. tt) result
        ≡ copy_handed (model_of source.now) (model_of destination.now) readings room }
    ensures reach { IfOk result (λ reach. ends_of reach ≡ layout_ends (model_of destination.now)) }
{
    let (reach, into_reach) = reach_both(source, destination)?;
    if !have_same_extents(source, destination) {
        return Err(Refusal::ExtentsDiffer);
    }
    if reach.is_past(readings) || into_reach.is_past(room) {
        return Err(Refusal::ShortReadings);
    }
    Ok(into_reach)
}

/// The refusals 8 and 9 of the verdict on the destination's axes, and 14 for any verdict but Distinct.
#[tactic(auto, using(crate::proofs::SharedLaws::shared_refused))]
fn refuse_shared(destination: &Layout, scratch: &mut [u64]) -> Result<(), Refusal>
    requires { rank (model_of destination.now) ≤ 16 }
    ensures answer { outcome_of result ≡ distinct_judged (model_of destination.now) (length scratch.old) }
    ensures freed { ScratchAfter (freed_by (judge (model_of destination.now).axes (length scratch.old)))
        scratch.old scratch.new }
{
    match judge_layout(destination, scratch)? {
        Judgement::Distinct(_) => Ok(()),
        Judgement::Repeated(_) | Judgement::Undecided => Err(Refusal::NotDistinct),
    }
}

/// Copies the reading of each position, of which there is at least one.
fn copy_positions(source: &Layout, from: &[i32], destination: &Layout, to: &mut [i32])
    requires some { 0 < positions (model_of destination.now).axes }
    requires suited { IsSuited (model_of source.now) (model_of destination.now) (length from.now) (length to.old) }
    ensures { to.new ≡ copies (cell_at (model_of source.now)) (cell_at (model_of destination.now)) from.now
        (positions (model_of destination.now).axes) to.old }
{
    copy_sheets(from, Sheets::of(source), to, Sheets::of(destination));
}

/// Copies the reading of each position of one layout to the same position of another. Afterwards the
/// destination's offset of each position holds the reading at the source's offset of that position;
/// every other reading of `to` is as it was.
///
/// Refusals, the first that applies: 1 either layout has more than 16 axes; 3 an offset of either is
/// not accepted; 12 their extents are not the same list; 13 a buffer has fewer readings than its
/// layout's highest offset + 1 (an empty layout needs none); 8 and 9 as the verdict on the
/// destination's axes is refused; 14 that verdict is not Distinct. A refusal leaves `to`.
///
/// Only the verdict works in the scratch, as in `judge_layout`: the words that it needs may hold
/// anything after a copy and after refusal 14, and all words stay after any other refusal.
#[tactic(auto, using(crate::proofs::CallLaws::refused_before, crate::proofs::CallLaws::free_before, crate::proofs::CallLaws::suited, crate::proofs::CallLaws::few, crate::proofs::CallLaws::free_after, crate::proofs::CallLaws::then_judged), unfolding(crate::specs::Copy::copy_after))]
pub fn copy(
    source: &Layout,
    from: &[i32],
    destination: &Layout,
    to: &mut [i32],
    scratch: &mut [u64],
) -> Result<(), Refusal>
    ensures answer { outcome_of result ≡ copy_refusal (model_of source.now) (model_of destination.now)
        (length from.now) (length to.old) (length scratch.old) }
    ensures copied { to.new ≡ copy_after (outcome_of result) (model_of source.now) (model_of destination.now)
        from.now to.old }
    ensures freed { ScratchAfter (copy_frees (model_of source.now) (model_of destination.now)
        (length from.now) (length to.old) (length scratch.old)) scratch.old scratch.new }
{
    let reach = suited_reach(source, from.len(), destination, to.len())?;
    refuse_shared(destination, scratch)?;
    match reach {
        Reach::Empty => {}
        Reach::Between(..) => copy_positions(source, from, destination, to),
    }
    Ok(())
}

/// Does nothing, and promises what is claimed of copies, and copies that are computed: the check
/// wants the proof.
#[tactic(auto, using(crate::proofs::CopyAnswers::copy_claims, crate::proofs::ComputedCopies::copy_cases))]
pub fn copies_hold()
    ensures copies { CopyClaims }
    ensures cases { CopyCases }
{}

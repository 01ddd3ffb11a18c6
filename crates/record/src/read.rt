//! The reader: the layout of the record at the front of bytes, its verdict judged afresh.
ghost use Rattle.view.specs.Model.{layout_outcome};
ghost use Rattle.record.specs.Reading.{Reading};

use crate::reader::read_front;
use injectivity::judge_layout;
use view::layout::{Layout, Refusal};

/// The layout of the record at the front, whatever bytes stand behind it. Its buffer length, in
/// readings, is its highest offset + 1, or 0 if it is empty. Refusal 11 is that no record is there, 9 a scratch of fewer
/// words than the verdict needs, then 11 a verdict that is false. Words of scratch past those that
/// are needed stay, and all stay if no verdict was judged.
#[tactic(auto, using(specification::proofs::OutcomeLaws::chains, std::proofs::lemmas::Bool::Decides::nat_tests, injectivity::proofs::PlanLaws::lent, view::proofs::AxesLaws::length_first_axes), unfolding(specification::specs::Record::read_of, specification::specs::Record::read_frees, specification::specs::Verdict::freed_by))]
pub fn read_record(bytes: &[u8], scratch: &mut [u64]) -> Result<Layout, Refusal>
    ensures { Reading bytes.now scratch.old (layout_outcome result) scratch.new }
{
    let front = read_front(bytes).ok_or(Refusal::NotARecord)?;
    let judged = judge_layout(&front.layout, scratch)?;
    if judged.number() != front.verdict {
        return Err(Refusal::NotARecord);
    }
    Ok(front.layout)
}

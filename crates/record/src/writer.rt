//! The writer: the record of a layout's normal form with its verdict, at the front of an output.
ghost use Rattle.record.specs.Writer.{Wrote};

use crate::fields::{BytePlace, put_record, record_length};
use crate::normal::normal_form;
use injectivity::judge_layout;
use view::layout::{Layout, Refusal};

/// The record of a layout's normal form with its verdict at the front of the output; the answer is
/// how many bytes it has, and the bytes past it stay. Refusals 1, 3 and 8 are those of the normal
/// form, then 10 is an output of fewer bytes than the record has, 9 a scratch of fewer words than
/// the verdict needs; then the output stays, and every word of the scratch. Else the words past
/// those needed stay.
#[tactic(auto, using(crate::proofs::WriterLaws::writings, injectivity::proofs::PlanLaws::lent), unfolding(specification::specs::Record::written, specification::specs::Record::write_answer, specification::specs::Record::write_frees, specification::specs::Verdict::freed_by))]
pub fn write_record(
    layout: &Layout,
    out: &mut [u8],
    scratch: &mut [u64],
) -> Result<BytePlace, Refusal>
    ensures { Wrote layout.now out.old scratch.old result out.new scratch.new }
{
    let form = normal_form(layout)?;
    let size = record_length(form.rank);
    if out.len() < size {
        return Err(Refusal::ShortOutput(size));
    }
    let judged = judge_layout(&form, scratch)?;
    put_record(out, &form, judged.number());
    Ok(BytePlace(size))
}

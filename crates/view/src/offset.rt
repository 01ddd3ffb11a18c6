//! The offset of an index vector.
ghost use Rattle.std.specs.Prelude.{◌≡◌, ◌≤◌, length};
ghost use Rattle.specification.specs.Beside.{sum_indexed, indexed_offset};
ghost use Rattle.view.specs.Indexed.{added_of, indexed_of};
ghost use Rattle.view.specs.Model.{model_of};

use crate::layout::{Layout, ReadingOffset, Refusal};
use integer::signed::checked_mul;

/// The offset one index further: the index is below 2^63, and neither the product nor the sum leaves 64 bits signed.
#[tactic(auto, using(crate::proofs::IndexedLaws::added))]
fn add_indexed(sum: ReadingOffset, index: u64, stride: i64) -> Result<ReadingOffset, Refusal>
    ensures { indexed_of result ≡ added_of sum.0 index stride }
{
    if index > i64::MAX as u64 {
        return Err(Refusal::OutOfRange);
    }
    let step = checked_mul(stride, index).ok_or(Refusal::OutOfRange)?;
    let offset = sum.0.checked_add(step).ok_or(Refusal::OutOfRange)?;
    Ok(ReadingOffset(offset))
}

impl Layout {
    /// The sum over the axes of an index vector, from the offset on: 7 if an index is not below its extent, else 3.
    fn sum_indexed(&self, index: &[u64]) -> Result<ReadingOffset, Refusal>
        requires few { self.now.rank ≤ 16 }
        requires one_length { length index.now ≡ self.now.rank }
        ensures { indexed_of result
            ≡ sum_indexed 0 self.now.offset.0 (model_of self.now).axes index.now }
    {
        let axes = self.few_axes();
        let mut sum = self.offset;
        for (i, &x) in index.iter().enumerate() {
            let axis = axes[i];
            if axis.extent <= x {
                return Err(Refusal::BadIndex(i));
            }
            sum = add_indexed(sum, x, axis.stride)?;
        }
        Ok(sum)
    }

    /// Refusals 1, 3, 4 for another number of indices than axes, then axis by axis 7 for an index that is not below its extent or 3
    /// for a sum out of range; or the offset of the index vector.
    #[tactic(auto, unfolding(specification::specs::Beside::indexed_offset), using(crate::proofs::ListedLaws::rank_model_of, crate::proofs::ListedLaws::listed_refused, crate::proofs::ListedLaws::listed_wrong, crate::proofs::ListedLaws::listed_next))]
    pub fn indexed_offset(&self, index: &[u64]) -> Result<ReadingOffset, Refusal>
        ensures { indexed_of result ≡ indexed_offset (model_of self.now) index.now }
    {
        self.handed_refusal(index.len())?;
        if index.len() != self.rank {
            return Err(Refusal::WrongLength(index.len(), self.rank));
        }
        self.sum_indexed(index)
    }
}

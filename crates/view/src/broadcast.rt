//! broadcast: a layout stretched to target extents.
ghost use Rattle.std.specs.Prelude.{◌≡◌, ◌≤◌, length, drop, OnOk, OnErr};
ghost use Rattle.specification.specs.Views.{target_fault, spread, broadcast};
ghost use Rattle.view.specs.Answers.{outcome_of};
ghost use Rattle.view.specs.Model.{model_of, viewed_of, told};
ghost use Rattle.view.specs.Refusals.{broadcast_refusal};

use crate::layout::{Layout, Refusal, Viewed};
use axis::Axis;

/// The first axis whose extent is neither its target nor 1.
fn target_fault(axes: &[Axis], targets: &[u64]) -> Result<(), Refusal>
    requires { length targets.now ≡ length axes.now }
    ensures { outcome_of result ≡ target_fault 0 axes.now targets.now }
{
    let unfit = axes.iter().zip(targets).position(|(axis, &target)| axis.extent != target
        && axis.extent != 1);
    match unfit {
        Some(axis) => Err(Refusal::BadExtent(axis)),
        None => Ok(()),
    }
}

/// The targets for extents: an equal extent keeps its stride, a stretched axis stands still.
fn stretch(axes: &mut [Axis], targets: &[u64])
    requires { length targets.now ≡ length axes.old }
    ensures { axes.new ≡ spread axes.old targets.now }
{
    for (i, &extent) in targets.iter().enumerate() {
        if axes[i].extent != extent {
            axes[i] = Axis { extent, stride: 0 };
        }
    }
}

impl Layout {
    /// Every refusal of broadcast, in order.
    #[tactic(auto, using(crate::proofs::ListedLaws::rank_model_of, crate::proofs::ListedLaws::listed_refused, crate::proofs::ListedLaws::listed_wrong, crate::proofs::ListedLaws::listed_next))]
    fn broadcast_refusal(&self, targets: &[u64]) -> Result<(), Refusal>
        ensures answer { outcome_of result
            ≡ broadcast_refusal (model_of self.now) targets.now }
        ensures few { OnOk result (self.now.rank ≤ 16) }
        ensures listed { OnOk result (length targets.now ≡ self.now.rank) }
    {
        self.handed_refusal(targets.len())?;
        if targets.len() != self.rank {
            return Err(Refusal::WrongLength(self.rank, targets.len()));
        }
        target_fault(self.few_axes(), targets)
    }

    /// Stretched to the target extents; or refusal 1, 3, 4 for another number of targets than axes, 6 with the first axis whose
    /// extent is neither its target nor 1, and the layout as it was.
    pub fn broadcast_in_place(&mut self, targets: &[u64]) -> Result<(), Refusal>
        ensures told { told result self.new
            ≡ broadcast (model_of self.old) targets.now }
        ensures kept { OnErr result (self.new ≡ self.old) }
        ensures past { drop self.new.rank self.new.axes ≡ drop self.new.rank self.old.axes }
    {
        self.broadcast_refusal(targets)?;
        stretch(&mut self.axes[..targets.len()], targets);
        Ok(())
    }

    /// The layout after it, or the refusal and the layout as it was.
    pub fn broadcast(mut self, targets: &[u64]) -> Viewed
        ensures { viewed_of result ≡ broadcast (model_of self) targets.now }
    {
        let answer = self.broadcast_in_place(targets);
        Viewed {
            layout: self,
            answer,
        }
    }
}

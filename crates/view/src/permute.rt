//! permute: the axes of a layout in another order.
ghost use Rattle.std.specs.Prelude.{◌≡◌, [], map, ◌++◌, ◌≤◌, length, drop, OnOk, OnErr};
ghost use Rattle.specification.specs.Views.{order_fault, axis_at, permute};
ghost use Rattle.view.specs.Answers.{outcome_of};
ghost use Rattle.view.specs.Model.{model_of, viewed_of, told};
ghost use Rattle.view.specs.Refusals.{permute_refusal, AllBelow};

use crate::layout::{Layout, Refusal, Viewed};
use axis::Axis;

/// The first entry that is outside the rank, or was named before: a mask has the axes named so far.
fn order_fault(order: &[usize], rank: usize) -> Result<(), Refusal>
    requires { rank ≤ 16 }
    ensures answer { outcome_of result ≡ order_fault rank [] order.now }
    ensures below { OnOk result (AllBelow rank order.now) }
{
    let mut seen: u16 = 0;
    for &axis in order {
        if rank <= axis || (seen >> axis) % 2 == 1 {
            return Err(Refusal::BadAxis(axis, rank));
        }
        seen |= 1 << axis;
    }
    Ok(())
}

/// The axes in the order of the list, in the first places.
fn reorder(axes: &mut [Axis; 16], order: &[usize])
    requires few { length order.now ≤ 16 }
    requires below { AllBelow 16 order.now }
    ensures { axes.new ≡ map (axis_at axes.old) order.now ++ drop (length order.now) axes.old }
{
    let old = *axes;
    for (i, &axis) in order.iter().enumerate() {
        axes[i] = old[axis];
    }
}

impl Layout {
    /// Every refusal of permute, in order.
    #[tactic(auto, using(crate::proofs::ListedLaws::rank_model_of, crate::proofs::ListedLaws::listed_refused, crate::proofs::ListedLaws::listed_wrong, crate::proofs::ListedLaws::listed_next))]
    fn permute_refusal(&self, order: &[usize]) -> Result<(), Refusal>
        ensures answer { outcome_of result ≡ permute_refusal (model_of self.now) order.now }
        ensures few { OnOk result (self.now.rank ≤ 16) }
        ensures listed { OnOk result (length order.now ≡ self.now.rank) }
        ensures below { OnOk result (AllBelow self.now.rank order.now) }
    {
        self.handed_refusal(order.len())?;
        if order.len() != self.rank {
            return Err(Refusal::WrongLength(order.len(), self.rank));
        }
        order_fault(order, self.rank)
    }

    /// The axes in the order of the list; or refusal 1, 3, 4 for another number of entries than axes, 5 with the first entry that is
    /// outside the rank or named twice, and the layout as it was.
    #[tactic(auto, using(crate::proofs::ViewLaws::permute_refused, crate::proofs::ViewLaws::permute_done, crate::proofs::ViewLaws::first_axes_order))]
    pub fn permute_in_place(&mut self, order: &[usize]) -> Result<(), Refusal>
        ensures told { told result self.new ≡ permute (model_of self.old) order.now }
        ensures kept { OnErr result (self.new ≡ self.old) }
        ensures past { drop self.new.rank self.new.axes ≡ drop self.new.rank self.old.axes }
    {
        self.permute_refusal(order)?;
        reorder(&mut self.axes, order);
        Ok(())
    }

    /// The layout after it, or the refusal and the layout as it was.
    pub fn permute(mut self, order: &[usize]) -> Viewed
        ensures { viewed_of result ≡ permute (model_of self) order.now }
    {
        let answer = self.permute_in_place(order);
        Viewed {
            layout: self,
            answer,
        }
    }
}

//! Pairs of axes as they are handed in: as structs, or in plain numbers, as C hands them in.
ghost use Rattle.std.specs.Prelude.{◌≡◌, ◌≤◌, ℕ, drop, slice_index_or, OnErr};
ghost use Rattle.specification.specs.Views.{pairs_of, diagonal_view};
ghost use Rattle.view.specs.Model.{model_of, told};

use crate::diagonal::AxisPair;
use crate::layout::{Layout, Refusal};

/// Two axes that are to be one, by their numbers.
pub(crate) trait Pair: Copy {
    ghost numbers_of: { Self → ℕ × ℕ };

    /// The numbers of the two axes, from 0.
    fn numbers(self) -> (usize, usize)
        ensures { result ≡ numbers_of self };
}

impl Pair for AxisPair {
    ghost use Rattle.view.specs.Ties.{pair_of};

    ghost numbers_of = { pair_of };

    fn numbers(self) -> (usize, usize) {
        (self.0, self.1)
    }
}

impl Pair for [usize; 2] {
    ghost use Rattle.view.specs.Ties.{two_of};

    ghost numbers_of = { two_of };

    fn numbers(self) -> (usize, usize) {
        (self[0], self[1])
    }
}

impl Layout {
    /// `diagonal_in_place` for pairs in flat numbers; an odd last number is passed over.
    #[tactic(auto, using(crate::proofs::PairLaws::numbers_paired))]
    pub fn diagonal_by_numbers(&mut self, pairs: &[usize]) -> Result<(), Refusal>
        ensures told { told result self.new ≡ diagonal_view (model_of self.old) (pairs_of pairs.now) }
        ensures kept { OnErr result (self.new ≡ self.old) }
        ensures past { drop self.new.rank self.new.axes ≡ drop self.new.rank self.old.axes }
    {
        let (pairs, _) = pairs.as_chunks::<2>();
        self.diagonal_by(pairs)
    }
}

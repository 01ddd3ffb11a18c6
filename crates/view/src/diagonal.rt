//! diagonal: tied axes become one axis.
ghost use Rattle.std.specs.Prelude.{◌≡◌, [], ◌∷◌, map, ◌%◌, ◌^◌, ◌≤◌, ◌<◌, length, drop, OnOk, OnErr};
ghost use Rattle.std.specs.Int.Count.{ones};
ghost use Rattle.specification.specs.Views.{pair_fault, diagonal_view};
ghost use Rattle.view.specs.Answers.{outcome_of};
ghost use Rattle.view.specs.Model.{model_of, viewed_of, told, first_axes};
ghost use Rattle.view.specs.Ties.{pairs_in, own_roots, joined, joined_all, renamed, mask_of, IsRooted, roots_below, fused_axes, fused_fault, fused_view};

use crate::bounds::Candidate;
use crate::layout::{Layout, Refusal, Viewed};
use crate::numbers::Pair;
use axis::Axis;

/// Two axes that are to be one, by their numbers from 0.
#[derive(Clone, Copy, Debug, PartialEq, Eq)]
pub struct AxisPair(pub usize, pub usize);

/// The root of each axis, which is the lowest axis of its class, for the pairs tied so far.
#[derive(Drop)]
pub(crate) struct Ties {
    roots: [u8; 16],
    rank: usize,
    ghost few: { rank ≤ 16 },
    ghost rooted: { IsRooted rank roots },
}

/// Each axis whose root is `from` gets the root `to`.
fn relabel(roots: &mut [u8; 16], from: u8, to: u8)
    ensures { roots.new ≡ map (renamed from to) roots.old }
{
    for root in roots.iter_mut() {
        if *root == from {
            *root = to;
        }
    }
}

impl Ties {
    /// Each axis is a class of its own.
    fn new(rank: usize) -> Self
        requires { rank ≤ 16 }
        ensures roots { result.roots ≡ own_roots }
        ensures rank { result.rank ≡ rank }
    {
        Ties {
            roots: [0, 1, 2, 3, 4, 5, 6, 7, 8, 9, 10, 11, 12, 13, 14, 15],
            rank,
        }
    }

    /// One pair more: 5 with the larger axis outside the rank, then 5 for equal axes; else both classes get the lower of their roots.
    #[tactic(auto, using(crate::proofs::TieLaws::fault_outside, crate::proofs::TieLaws::fault_equal, crate::proofs::TieLaws::fault_none))]
    fn tie(&mut self, a: usize, b: usize) -> Result<(), Refusal>
        ensures answer { outcome_of result ≡ pair_fault self.old.rank ((a, b) ∷ []) }
        ensures roots { OnOk result (self.new.roots ≡ joined self.old.roots (a, b)) }
        ensures rank { self.new.rank ≡ self.old.rank }
    {
        let axis = a.max(b);
        if self.rank <= axis {
            return Err(Refusal::BadAxis(axis, self.rank));
        }
        if a == b {
            return Err(Refusal::BadAxis(a, self.rank));
        }
        let p = self.roots[a];
        let q = self.roots[b];
        relabel(&mut self.roots, p.max(q), p.min(q));
        Ok(())
    }

    /// The pairs in order, up to the first that is refused.
    fn tie_all<P: Pair>(&mut self, pairs: &[P]) -> Result<(), Refusal>
        ensures answer { outcome_of result ≡ pair_fault self.old.rank (map P.numbers_of pairs.now) }
        ensures roots { OnOk result (self.new.roots
            ≡ joined_all self.old.roots (map P.numbers_of pairs.now)) }
        ensures rank { self.new.rank ≡ self.old.rank }
    {
        for pair in pairs {
            let (a, b) = pair.numbers();
            self.tie(a, b)?;
        }
        Ok(())
    }
}

/// Bit a is set if axis a is a root.
#[tactic(auto, using(crate::proofs::RootLaws::mask_none, crate::proofs::RootLaws::mask_set, crate::proofs::RootLaws::mask_clear))]
fn root_mask(roots: &[u8; 16], rank: usize) -> u16
    requires { rank ≤ 16 }
    ensures { result ≡ mask_of roots.now rank }
{
    let mut mask: u16 = 0;
    for axis in 0..rank {
        if roots[axis] as usize == axis {
            mask |= 1 << axis;
        }
    }
    mask
}

/// The new axis of a root: how many roots stand below it.
#[tactic(auto, using(crate::proofs::RootLaws::bits_below))]
fn place(mask: u16, root: usize) -> usize
    requires { root < 16 }
    ensures { result ≡ ones (mask % 2 ^ root) }
{
    (mask & ((1 << root) - 1)).count_ones() as usize
}

/// One axis for each root into the first places: the least extent, and the sum of the strides in ascending axis order.
fn fuse(axes: &[Axis], roots: &[u8; 16], mask: u16, fused: &mut [Axis; 16]) -> Result<(), Refusal>
    requires few { length axes.now ≤ 16 }
    requires rooted { IsRooted (length axes.now) roots.now }
    requires masked { mask ≡ mask_of roots.now (length axes.now) }
    ensures answer { outcome_of result
        ≡ fused_fault axes.now roots.now (roots_below roots.now (length axes.now)) }
    ensures fused { OnOk result (first_axes fused.new (ones mask) ≡ fused_axes axes.now roots.now) }
{
    for (axis, &Axis { extent, stride }) in axes.iter().enumerate() {
        let root = roots[axis] as usize;
        let class = &mut fused[place(mask, root)];
        if root == axis {
            *class = Axis { extent, stride };
        } else {
            class.stride = class.stride.checked_add(stride).ok_or(Refusal::OutOfRange)?;
            class.extent = class.extent.min(extent);
        }
    }
    Ok(())
}

impl Layout {
    /// Each class as one axis, at the place of its root; or refusal 3 of a sum or of the bounds, and the layout as it was.
    fn fuse_in_place(&mut self, ties: &Ties) -> Result<(), Refusal>
        requires { ties.now.rank ≡ self.old.rank }
        ensures told { told result self.new ≡ fused_view (model_of self.old) ties.now.roots }
        ensures kept { OnErr result (self.new ≡ self.old) }
        ensures past { drop self.new.rank self.new.axes ≡ drop self.new.rank self.old.axes }
    {
        let mask = root_mask(&ties.roots, self.rank);
        let mut fused = [Axis::NONE; 16];
        fuse(&self.axes[..self.rank], &ties.roots, mask, &mut fused)?;
        let rank = mask.count_ones() as usize;
        Candidate {
            len: self.len,
            offset: self.offset,
            axes: &fused[..rank],
        }
        .bounds_refusal()?;
        self.rank = rank;
        self.axes[..rank].copy_from_slice(&fused[..rank]);
        Ok(())
    }

    /// Tied axes as one axis, for pairs in order; or the refusal, and the layout as it was.
    #[tactic(auto, using(crate::proofs::DiagonalLaws::diagonal_handed, crate::proofs::DiagonalLaws::diagonal_paired, crate::proofs::DiagonalLaws::diagonal_fused))]
    pub(crate) fn diagonal_by<P: Pair>(&mut self, pairs: &[P]) -> Result<(), Refusal>
        ensures told { told result self.new
            ≡ diagonal_view (model_of self.old) (map P.numbers_of pairs.now) }
        ensures kept { OnErr result (self.new ≡ self.old) }
        ensures past { drop self.new.rank self.new.axes ≡ drop self.new.rank self.old.axes }
    {
        self.handed_refusal(0)?;
        let mut ties = Ties::new(self.rank);
        ties.tie_all(pairs)?;
        self.fuse_in_place(&ties)
    }

    /// Tied axes as one axis, for pairs in order; or refusal 1, 3, 5 with an axis of the first pair that names one outside the
    /// rank or one twice, 3 of a sum of strides or of the bounds, and the layout as it was.
    pub fn diagonal_in_place(&mut self, pairs: &[AxisPair]) -> Result<(), Refusal>
        ensures told { told result self.new ≡ diagonal_view (model_of self.old) (pairs_in pairs.now) }
        ensures kept { OnErr result (self.new ≡ self.old) }
        ensures past { drop self.new.rank self.new.axes ≡ drop self.new.rank self.old.axes }
    {
        self.diagonal_by(pairs)
    }

    /// The layout after it, or the refusal and the layout as it was.
    pub fn diagonal_view(mut self, pairs: &[AxisPair]) -> Viewed
        ensures { viewed_of result ≡ diagonal_view (model_of self) (pairs_in pairs.now) }
    {
        let answer = self.diagonal_in_place(pairs);
        Viewed {
            layout: self,
            answer,
        }
    }
}

//! Dense strides: running products of the extents.
#![tactic(auto)]

ghost use Rattle.std.specs.Prelude.{◌≡◌, ◌≤◌, ◌<◌, List, ℤ, take, length, IfOk};
ghost use Rattle.specification.specs.Beside.{next_step, col_major, row_major};
ghost use Rattle.specification.specs.BesideClaims.{DenseClaims};
ghost use Rattle.view.specs.Answers.{outcome_of};
ghost use Rattle.dense.specs.Dense.{fitting_step, dense_by, axis_after};

use std::marker::Model;
use view::bounded::bounded_product;
use view::count::has_no_position;
use view::layout::{MOST_AXES, Refusal};

/// As many strides as there are extents, in readings.
#[derive(Clone, Copy, Debug)]
pub struct DenseStrides {
    strides: [i64; 16],
    count: usize,
}

// Clauses see the strides. The places behind them hold 0, so the strides are all there is to copy.
impl Model for DenseStrides {
    ghost use Rattle.std.specs.Prelude.{List, ℤ, take};
    ghost use Rattle.dense.specs.Strides.{fields_of, IsFilled};

    ghost Value = { List ℤ };

    ghost view = { λ dense. take dense.count dense.strides };

    ghost invariant = { IsFilled };

    ghost inverse = { fields_of };

    ghost inverse_ok = { λ dense h. h.filled };
}

impl DenseStrides {
    /// The strides, in the order of the extents.
    pub fn as_slice(&self) -> &[i64]
        ensures { result.now ≡ self.now }
    {
        &self.strides[..self.count]
    }
}

/// Which axis is the densest: the first by column, the last by row.
#[derive(Clone, Copy, Debug, PartialEq, Eq)]
enum Major {
    Column,
    Row,
}

/// The largest step.
const MOST_STEP: u64 = i64::MAX as u64;

/// The product of a step and an extent, if it and the extent are at most the largest step.
fn fitting_step(step: u64, extent: u64) -> Option<u64>
    ensures { result ≡ fitting_step step extent }
{
    if MOST_STEP < extent {
        return None;
    }
    bounded_product(step, extent, MOST_STEP)
}

/// The step after an extent. One that does not fit is the largest one in an empty layout.
#[tactic(auto, unfolding(specification::specs::Beside::next_step))]
fn next_step(empty: bool, step: u64, extent: u64) -> Result<u64, Refusal>
    ensures { outcome_of result ≡ next_step empty step extent }
{
    match fitting_step(step, extent) {
        Some(next) => Ok(next),
        None if empty => Ok(MOST_STEP),
        None => Err(Refusal::OutOfRange),
    }
}

/// The step at each axis, from the densest axis on.
#[tactic(auto, using(crate::proofs::StridesLaws::filled, crate::proofs::StridesLaws::none_stored, crate::proofs::DenseLaws::stop, crate::proofs::DenseLaws::many, crate::proofs::DenseLaws::refusal, crate::proofs::DenseLaws::answered))]
fn running_products(extents: &[u64], major: Major) -> Result<DenseStrides, Refusal>
    ensures answer { outcome_of result ≡ dense_by major extents.now }
    ensures as_many { IfOk result (λ strides. length strides ≡ length extents.now) }
{
    let rank = extents.len();
    if MOST_AXES < rank {
        return Err(Refusal::TooManyAxes);
    }
    let empty = has_no_position(extents);
    let mut strides = [0i64; 16];
    let mut step = 1;
    for passed in 0..rank {
        let axis = axis_after(major, rank, passed);
        strides[axis] = step as i64;
        step = next_step(empty, step, extents[axis])?;
    }
    Ok(DenseStrides {
        strides,
        count: rank,
    })
}

/// The axis where so many were passed.
fn axis_after(major: Major, rank: usize, passed: usize) -> usize
    requires { passed < rank }
    ensures { result ≡ axis_after major rank passed }
{
    match major {
        Major::Column => passed,
        Major::Row => rank - 1 - passed,
    }
}

/// The strides of a dense layout by column, where the first axis is the densest; refusal 1 for more than 16 extents, 3 where
/// a running product or an extent is above 2^63 - 1 and no extent is 0.
pub fn checked_col_major_strides(extents: &[u64]) -> Result<DenseStrides, Refusal>
    ensures answer { outcome_of result ≡ col_major extents.now }
    ensures as_many { IfOk result (λ strides. length strides ≡ length extents.now) }
{
    running_products(extents, Major::Column)
}

/// The strides of a dense layout by row, where the last axis is the densest; refusals as by column.
pub fn checked_row_major_strides(extents: &[u64]) -> Result<DenseStrides, Refusal>
    ensures answer { outcome_of result ≡ row_major extents.now }
    ensures as_many { IfOk result (λ strides. length strides ≡ length extents.now) }
{
    running_products(extents, Major::Row)
}

/// Does nothing, and promises what is claimed of dense strides: when they are refused, the running products, that position k
/// stands at offset k, and that by row they are those by column of the reversed extents. The check wants the proof.
#[tactic(auto, using(specification::proofs::DenseLaws::dense_claims))]
pub fn dense_strides_hold()
    ensures dense { DenseClaims }
{}

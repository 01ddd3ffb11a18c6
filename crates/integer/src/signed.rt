// A stride times an index, which std has not: an i64 times a u64, if the product is an i64 again.
ghost use Rattle.std.specs.Prelude.{◌≡◌};
ghost use Rattle.integer.specs.Multiple.{◌·◌};
ghost use Rattle.integer.specs.Range.{checked_of};

/// last times stride, if an i64 holds it.
#[tactic(auto, using(crate::proofs::MultipleLaws::multiples))]
pub fn checked_mul(stride: i64, last: u64) -> Option<i64>
    ensures { result ≡ checked_of (last · stride) }
{
    let size = stride.unsigned_abs().checked_mul(last)?;
    let negative = stride < 0;
    if negative {
        0i64.checked_sub_unsigned(size)
    } else {
        0i64.checked_add_unsigned(size)
    }
}

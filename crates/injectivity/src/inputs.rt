//! What is answered or refused before the block is looked for.
ghost use Rattle.std.specs.List.{list_any};
ghost use Rattle.std.specs.Prelude.{◌≡◌, ◌≤◌, length};
ghost use Rattle.specification.specs.Verdict.{still, is_out_of_range};
ghost use Rattle.injectivity.specs.Inputs.{IsValidated, unfit};

use crate::Judgement;
use axis::Axis;
use view::bounds::sum_spans;
use view::count::element_count;
use view::layout::Refusal;

/// How far the positive spans may reach, and the negative ones: the largest and the least number
/// that an i64 holds.
const MOST_UP: u64 = i64::MAX as u64;

const MOST_DOWN: u64 = MOST_UP + 1;

/// Whether an axis is active with stride 0.
#[tactic(auto, using(crate::proofs::InputsLaws::axis_tests))]
fn is_still(axis: &Axis) -> bool
    ensures { result ≡ still axis.now }
{
    1 < axis.extent && axis.stride == 0
}

/// Whether some axis is.
fn some_still(axes: &[Axis]) -> bool
    ensures { result ≡ list_any still axes.now }
{
    axes.iter().any(is_still)
}

/// Whether an extent is above 2^63, or an active axis's stride is -2^63.
#[tactic(auto, using(crate::proofs::InputsLaws::axis_tests))]
fn is_unfit(axis: &Axis) -> bool
    ensures { result ≡ unfit axis.now }
{
    1 < axis.extent && (MOST_DOWN < axis.extent || axis.stride == i64::MIN)
}

/// Whether some axis is.
fn some_unfit(axes: &[Axis]) -> bool
    ensures { result ≡ list_any unfit axes.now }
{
    axes.iter().any(is_unfit)
}

/// Refusal 3. No span is out of range if the sums of the positive and of the negative spans are
/// in range.
#[tactic(auto, using(crate::proofs::InputsLaws::out_is))]
fn out_of_range(axes: &[Axis]) -> bool
    ensures { result ≡ is_out_of_range axes.now }
{
    some_unfit(axes) || sum_spans(axes, MOST_UP, MOST_DOWN).is_none()
}

/// What is answered before the block is looked for; nothing, if the block decides. The errors
/// are 8, more than 2^64 - 1 positions, and 3.
#[tactic(auto, using(crate::proofs::PlanLaws::planning))]
pub fn validate_injective_layout_inputs(axes: &[Axis]) -> Result<Option<Judgement>, Refusal>
    requires { length axes.now ≤ 16 }
    ensures { IsValidated axes.now result }
{
    let total = element_count(axes)?;
    if total <= 1 {
        return Ok(Some(Judgement::Distinct(0)));
    }
    if some_still(axes) {
        return Ok(Some(Judgement::Repeated(0)));
    }
    if out_of_range(axes) {
        return Err(Refusal::OutOfRange);
    }
    Ok(None)
}

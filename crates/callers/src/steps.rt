//! Views made one by one, each answer kept, and two such chains compared by their records.
ghost use Rattle.std.specs.Prelude.{◌↔◌, [], ◌∷◌, length, IsTrue, IsOk, IfOk};
ghost use Rattle.specification.specs.Calls.{end_of};
ghost use Rattle.specification.specs.NormalClaims.{SameOffsets};
ghost use Rattle.specification.specs.RecordsAgree.{Run};
ghost use Rattle.view.specs.Answers.{outcome_of};
ghost use Rattle.record.specs.Calls.{call_in};
ghost use Rattle.record.specs.Chain.{Chain};
ghost use Rattle.callers.specs.Records.{HasRoom};
ghost use Rattle.callers.specs.Sheets.{sheet_of, IsFit};
ghost use Rattle.callers.specs.Steps.{calls_of, answers_in};

use crate::start::Sheet;
use record::calls::{Call, after};
use record::calls_hold;
use record::fields::BytePlace;
use record::writer::write_record;
use view::layout::{Layout, Refusal, Viewed};

/// Three views, one behind the other.
#[derive(Clone, Copy, Debug)]
pub struct Steps<'a> {
    /// The old number of each axis, in their new order.
    pub order: &'a [usize],
    /// The axes that are fused, two numbers a pair.
    pub pairs: &'a [usize],
    /// The new extent of each axis.
    pub targets: &'a [u64],
}

/// What the three views answered.
#[derive(Clone, Copy, Debug)]
pub struct Answers {
    pub turned: Result<(), Refusal>,
    pub fused: Result<(), Refusal>,
    pub stretched: Result<(), Refusal>,
}

impl Steps<'_> {
    /// The three views of a layout in place. A refused one leaves the layout to the next.
    pub fn made_in(self, layout: &mut Layout) -> Answers
        ensures { Chain layout.old (calls_of self.entry) (answers_in result) layout.new }
    {
        calls_hold();
        let turned = layout.permute_in_place(self.order);
        let fused = layout.diagonal_by_numbers(self.pairs);
        let stretched = layout.broadcast_in_place(self.targets);
        Answers {
            turned,
            fused,
            stretched,
        }
    }
}

/// Two views by value, and what each answered.
pub fn two_views(start: Layout, call: Call<'_>, next: Call<'_>) -> (Viewed, Viewed)
    ensures { Chain start (call_in call.entry ∷ call_in next.entry ∷ [])
        (outcome_of result.0.answer ∷ outcome_of result.1.answer ∷ []) result.1.layout }
{
    let one = after(start, call);
    let two = after(one.layout, next);
    (one, two)
}

/// Whether two sheets, one seen through three views in place and one through two by value, read the same cells in the same order.
/// Each record is written with an output and a scratch of its own.
pub fn same_after_steps(
    first: Sheet<'_>,
    steps: Steps<'_>,
    second: Sheet<'_>,
    calls: (Call<'_>, Call<'_>),
    output: &mut [u8],
    scratch: &mut [u64],
    other_output: &mut [u8],
    other_scratch: &mut [u64],
) -> Result<(Answers, bool), Refusal>
    ensures run { IfOk result (λ answer. Run (sheet_of first.entry) (calls_of steps.entry)
        (answers_in answer.0) (end_of (sheet_of first.entry) (calls_of steps.entry))) }
    ensures same { IfOk result (λ answer. IsTrue answer.1
        ↔ SameOffsets (end_of (sheet_of first.entry) (calls_of steps.entry))
        (end_of (sheet_of second.entry) (call_in calls.entry.0 ∷ call_in calls.entry.1 ∷ []))) }
    ensures answered { IsFit first.entry → IsFit second.entry
        → HasRoom (end_of (sheet_of first.entry) (calls_of steps.entry))
        (length output.old) (length scratch.old)
        → HasRoom (end_of (sheet_of second.entry)
        (call_in calls.entry.0 ∷ call_in calls.entry.1 ∷ []))
        (length other_output.old) (length other_scratch.old)
        → IsOk result }
{
    calls_hold();
    let mut layout = first.checked_in()?;
    let answers = steps.made_in(&mut layout);
    let (_, end) = two_views(second.checked_in()?, calls.0, calls.1);
    let BytePlace(size) = write_record(&layout, output, scratch)?;
    let BytePlace(other_size) = write_record(&end.layout, other_output, other_scratch)?;
    Ok((answers, output[..size] == other_output[..other_size]))
}

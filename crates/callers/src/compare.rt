//! Whether two views read the same cells in the same order, and what the verdict byte of a record says.
ghost use Rattle.std.specs.Prelude.{◌↔◌, map, length, IsTrue, IsOk, IfOk};
ghost use Rattle.specification.specs.Calls.{end_of};
ghost use Rattle.specification.specs.NormalClaims.{SameOffsets};
ghost use Rattle.record.specs.Calls.{call_in};
ghost use Rattle.callers.specs.Sheets.{sheet_of, IsFit};
ghost use Rattle.callers.specs.Records.{HasRoom};
ghost use Rattle.callers.specs.Verdicts.{ByteTells};

use crate::start::Sheet;
use record::calls::Call;
use record::same::same_readings;
use view::layout::Refusal;

/// Whether the views of two sheets, each after a list of calls, read the same cells in the same order; and the verdict byte of the
/// first view's record: 1 if no two positions of that view share a cell, 2 if two do, 3 if both budgets are passed for its normal
/// form. The records are left in the two outputs.
pub fn same_cells(
    first: Sheet<'_>,
    calls: &[Call<'_>],
    second: Sheet<'_>,
    other_calls: &[Call<'_>],
    output: &mut [u8],
    other_output: &mut [u8],
    scratch: &mut [u64],
) -> Result<(bool, u8), Refusal>
    ensures same { IfOk result (λ answer. IsTrue answer.0
        ↔ SameOffsets (end_of (sheet_of first.entry) (map call_in calls.now))
        (end_of (sheet_of second.entry) (map call_in other_calls.now))) }
    ensures byte { IfOk result (λ answer.
        ByteTells (end_of (sheet_of first.entry) (map call_in calls.now)) answer.1) }
    ensures answered { IsFit first.entry → IsFit second.entry
        → HasRoom (end_of (sheet_of first.entry) (map call_in calls.now))
        (length output.old) (length scratch.old)
        → HasRoom (end_of (sheet_of second.entry) (map call_in other_calls.now))
        (length other_output.old) (length scratch.old)
        → IsOk result }
{
    let same = same_readings(
        first.checked_in()?,
        calls,
        second.checked_in()?,
        other_calls,
        output,
        other_output,
        scratch,
    )?;
    Ok((same, output[3]))
}

//! Views of a sheet, on which no call is refused: its diagonal, and whether two exchanges of its axes leave its readings.
ghost use Rattle.std.specs.Prelude.{◌≡◌, [], ◌∷◌, pos, IsOk, IfOk, IsTrue};
ghost use Rattle.specification.specs.WorkedExamples.{ax};
ghost use Rattle.layouts.specs.Model.{model_of, model_from};

use layouts::{AxisPair, Call, Layout, ReadingOffset, Refusal, same_readings};

/// The diagonal of the sheet, and whether two exchanges of its axes leave its readings.
#[tactic(auto, using(crate::proofs::Exchanges::checked, crate::proofs::Exchanges::exchanged, crate::proofs::Exchanges::fused, crate::proofs::Exchanges::same))]
pub fn tied_and_turned() -> Result<(Layout, bool), Refusal>
    ensures never_refused { IsOk result }
    ensures tied { IfOk result (λ answer. model_of answer.0
        ≡ model_from 6 (pos 0) (ax 2 (pos 3) ∷ [])) }
    ensures same { IfOk result (λ answer. IsTrue answer.1) }
{
    // six readings as two columns of three
    let mut sheet = Layout::new(6, ReadingOffset(0), &[2, 3], &[1, 2])?;
    // the same readings, rows first
    sheet.permute_in_place(&[1, 0])?;
    // both axes moved as one: extent 2, stride 3
    let tied = sheet.diagonal_view(&[AxisPair(0, 1)]).accepted()?;
    // exchanged and back again reads the same as the sheet, as two records tell
    let turns = [Call::Permute(&[1, 0]); 2];
    let (mut record, mut other_record) = ([0; 64], [0; 64]);
    let same = same_readings(
        sheet,
        &turns,
        sheet,
        &[],
        &mut record,
        &mut other_record,
        &mut [],
    )?;
    Ok((tied, same))
}

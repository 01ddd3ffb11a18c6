//! The mean of each point that is read in several faces.
ghost use Rattle.std.specs.Prelude.{◌≡◌, ◌<◌, ℕ, length, drop, IsOk, IfOk, OnErr};
ghost use Rattle.means.specs.MeansClaims.{MeansWritten};
ghost use Rattle.callers.specs.Sheets.{sheet_of, IsFit};
ghost use Rattle.callers.specs.Faces.{StandsAt};

use crate::start::Sheet;
use means::{means, means_hold};
use view::layout::Refusal;

/// The means over the faces of a sheet, of which one axis is the face, and how many there are. Each
/// is the nearest whole number to the exact mean of its readings, and stands in the output in
/// position order of the other axes; what is behind the last stays, and all of it on a refusal.
pub fn face_means(
    sheet: Sheet<'_>,
    face: usize,
    readings: &[i32],
    out: &mut [i32],
) -> Result<usize, Refusal>
    ensures count { IfOk result (λ count. MeansWritten (sheet_of sheet.entry) face (length readings.now) (length out.old) count) }
    ensures means { IfOk result (λ count. (k : ℕ) → k < count → StandsAt (sheet_of sheet.entry) face readings.now out.new k) }
    ensures behind { IfOk result (λ count. drop count out.new ≡ drop count out.old) }
    ensures kept { OnErr result (out.new ≡ out.old) }
    ensures answered { (count : ℕ) → IsFit sheet.entry
        → MeansWritten (sheet_of sheet.entry) face (length readings.now) (length out.old) count → IsOk result }
{
    means_hold();
    means(&sheet.checked_in()?, face, readings, out)
}

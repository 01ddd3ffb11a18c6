//! A caller to copy: may a program write through a sheet of readings? What each call answers is proved.
#![tactic(auto)]

ghost use Rattle.std.specs.Prelude.{◌≡◌, Ok};
ghost use Rattle.injectivity.specs.declared.Judgement.TheVariants.{Distinct, Repeated};

use layouts::{Judgement, Layout, ReadingOffset, Refusal, judge_layout};

pub mod turned;

/// The verdict of a sheet, and of the same sheet with a slip.
#[tactic(auto, using(crate::proofs::Steps::checked, crate::proofs::Steps::slipped, crate::proofs::Steps::apart, crate::proofs::Steps::shared))]
pub fn may_write() -> Result<(Judgement, Judgement), Refusal>
    ensures { result ≡ Ok (Distinct 0, Repeated 0) }
{
    // 24 readings as six rows of four
    let sheet = Layout::new(24, ReadingOffset(0), &[4, 6], &[1, 4])?;
    // a slip: the rows stand three apart
    let slipped = Layout::new(24, ReadingOffset(0), &[4, 6], &[1, 3])?;
    Ok((
        judge_layout(&sheet, &mut [])?,
        judge_layout(&slipped, &mut [])?,
    ))
}

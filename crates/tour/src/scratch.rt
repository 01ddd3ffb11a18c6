//! How much scratch to lend: none at first, and after refusal 9 as many words as it says.
use anyhow::Result;
use layouts::{Judgement, Layout, ReadingOffset, Refusal, judge_layout};
use std::alloc::Global;

// The verdict of a layout, with as much scratch as it needs: at most 16,777,217 words of 64 bits.
fn judge(alloc: Global, layout: &Layout) -> Result<Judgement> {
    match judge_layout(layout, &mut []) {
        Err(Refusal::ShortScratch(words)) => {
            let mut scratch = vec![in alloc; 0; words]?;
            Ok(judge_layout(layout, &mut scratch)?)
        }
        answer => Ok(answer?),
    }
}

pub(crate) fn show(rt: &HostRuntime) -> Result<()> {
    // twelve axes of three that interleave: too many differences to search, so the verdict enumerates the positions
    let strides = [
        2, 6, 18, 54, 162, 486, 1458, 4374, 13122, 39366, 118098, 177147,
    ];
    let layout = Layout::new(708587, ReadingOffset(0), &[3; 12], &strides)?;
    match judge_layout(&layout, &mut []) {
        Ok(judgement) => println!(rt; "with no scratch: {judgement}")?,
        Err(why) => println!(rt; "with no scratch: refused {}, {why}", why.number())?,
    }
    let judgement = judge(rt.alloc(), &layout)?;
    println!(rt; "with so many: {judgement}")?;
    Ok(())
}

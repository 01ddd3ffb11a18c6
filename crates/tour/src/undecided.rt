//! Undecided, and what the normal form does about it: merged axes are fewer, and their verdict may be found.
use anyhow::Result;
use layouts::{Layout, ReadingOffset, judge_layout, normal_form};

// The verdict of a layout of four axes, and that of its normal form, which reads the same cells in the same order.
fn ask(rt: &impl Print, name: &str, extent: u64, strides: [i64; 4]) -> Result<()> {
    let layout = Layout::new(u64::MAX, ReadingOffset(0), &[extent; 4], &strides)?;
    let normal = normal_form(&layout)?;
    let (given, merged) = (
        judge_layout(&layout, &mut [])?,
        judge_layout(&normal, &mut [])?,
    );
    println!(rt;
        "{name}: {given}; normal form of {} axes: {merged}",
        normal.rank
    )?;
    Ok(())
}

pub(crate) fn show(rt: &impl Print) -> Result<()> {
    // axis 1 goes on where axis 0 ends, and axis 3 where axis 2 ends: the normal form has two axes
    ask(
        rt,
        "tiles",
        2000,
        [4000003, 8000006000, 4000007, 8000014000],
    )?;
    // nothing merges here; whoever gets Undecided does not know, and does not write
    ask(
        rt,
        "apart",
        1449,
        [10000000000, 10000000001, 10000000002, 10000000003],
    )
}

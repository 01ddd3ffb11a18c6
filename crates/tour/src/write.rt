//! Check before a write: readings are written through a layout only if no two positions share a cell.
use anyhow::Result;
use layouts::{Judgement, Layout, ReadingOffset, Refusal, judge_layout};

// Whether a program may write through a layout: whether no two positions share a cell. No scratch is lent, so a layout that
// needs some is refused 9.
fn may_write(layout: &Layout) -> Result<bool, Refusal> {
    Ok(matches!(judge_layout(layout, &mut [])?, Judgement::Distinct(_)))
}

// Writes 10 × row + column at each position of six rows of four.
fn write_rows(layout: &Layout, buffer: &mut [u64]) -> Result<(), Refusal> {
    for row in 0..6 {
        for column in 0..4 {
            let ReadingOffset(offset) = layout.indexed_offset(&[column, row])?;
            if let Some(cell) = usize::try_from(offset)
                .ok()
                .and_then(|at| buffer.get_mut(at))
            {
                *cell = 10 * row + column;
            }
        }
    }
    Ok(())
}

// Writes six rows of four that stand so far apart, if that is safe.
fn try_rows(rt: &impl Print, apart: i64) -> Result<()> {
    let mut buffer = [0; 24];
    let rows = match Layout::new(24, ReadingOffset(0), &[4, 6], &[1, apart]) {
        Ok(rows) => rows,
        Err(why) => {
            println!(rt; "rows {apart} apart: refused {}", why.number())?;
            return Ok(());
        }
    };
    if may_write(&rows)? {
        write_rows(&rows, &mut buffer)?;
        println!(rt; "rows {apart} apart: {buffer:?}")?;
    } else {
        println!(rt; "rows {apart} apart: two positions share a cell, nothing is written")?;
    }
    Ok(())
}

pub(crate) fn show(rt: &impl Print) -> Result<()> {
    // one row behind the other
    try_rows(rt, 4)?;
    // a slip: the rows overlap
    try_rows(rt, 3)?;
    // the last row would end past the buffer
    try_rows(rt, 5)
}

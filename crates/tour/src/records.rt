//! Records one behind the other, as a file holds them, read by stepping from each to the next. One is damaged; the others are found.
use anyhow::Result;
use layouts::{BytePlace, Layout, ReadingOffset, read_record, step_over, write_record};
use std::alloc::Global;

// The records of some layouts, one behind the other. Two axes never need scratch.
fn written(alloc: Global, layouts: &[Layout]) -> Result<Vec<u8>> {
    let mut file = Vec::new(alloc);
    for layout in layouts {
        let mut record = [0; 64];
        let BytePlace(size) = write_record(layout, &mut record, &mut [])?;
        file.extend_from_slice(record.get(..size).unwrap_or(&[]))?;
    }
    Ok(file)
}

// A line for each record. There are no more records than bytes.
fn list(rt: &impl Print, file: &[u8]) -> Result<()> {
    let mut rest = file;
    for _ in 0..file.len() {
        if rest.is_empty() {
            break;
        }
        match read_record(rest, &mut []) {
            Ok(layout) => println!(rt; "a record: {layout}")?,
            Err(why) => println!(rt; "refused {}", why.number())?,
        }
        rest = step_over(rest);
    }
    Ok(())
}

pub(crate) fn show(rt: &HostRuntime) -> Result<()> {
    let at = ReadingOffset(0);
    let sheets = [
        Layout::new(24, at, &[4, 6], &[1, 4])?,
        Layout::new(24, at, &[4, 3], &[1, 8])?,
        Layout::new(24, at, &[6, 4], &[4, 1])?,
    ];
    let mut file = written(rt.alloc(), &sheets)?;
    // the second record begins behind the 29 bytes of the first; its byte 3 says 1, Distinct
    if let Some(verdict) = file.get_mut(29 + 3) {
        *verdict = 2;
    }
    list(rt, &file)
}

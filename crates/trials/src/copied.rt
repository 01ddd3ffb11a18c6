// Each caller to copy, with arguments with which it succeeds.
use callers::compare::same_cells;
use callers::count::verdict_with_count;
use callers::digits::written_by_digits;
use callers::faces::face_means;
use callers::keep::{written_again, written_back};
use callers::start::Sheet;
use callers::steps::{Steps, same_after_steps};
use callers::write::{may_write, stand_apart};
use layouts::{Axis, BytePlace, Call, Judgement, ReadingOffset};
use std::test::Fail;

const SHEET: Sheet<'static> = Sheet {
    len: 6,
    offset: ReadingOffset(0),
    extents: &[2, 3],
    strides: &[1, 2],
};

#[test]
fn may_be_written(rt: HostRuntime) -> Result<(), Fail> {
    let (view, judgement) = may_write(SHEET, &[Call::Permute(&[1, 0])], &mut [])?;
    assert_eq!(rt; view.axes[0].extent, 3);
    assert_eq!(rt; judgement, Judgement::Distinct(0));
    assert!(rt; stand_apart(&[2, 3], &[1, 2], &mut [])?);
    assert!(rt; !stand_apart(&[2, 3], &[1, 1], &mut [])?);
    Ok(())
}

#[test]
fn taken_over_faces(rt: HostRuntime) -> Result<(), Fail> {
    let mut out = [7; 4];
    let count = face_means(SHEET, 0, &[105, 106, -104, -105, 220, 220], &mut out)?;
    assert_eq!(rt; count, 3);
    assert_eq!(rt; out, [106, -105, 220, 7]);
    Ok(())
}

#[test]
fn counted(rt: HostRuntime) -> Result<(), Fail> {
    let axes = [
        Axis {
            extent: 2,
            stride: 2,
        },
        Axis {
            extent: 2,
            stride: 3,
        },
        Axis {
            extent: 2,
            stride: 5,
        },
    ];
    let judgement = verdict_with_count(&axes, &mut [])?;
    assert_eq!(rt; judgement, Judgement::Repeated(1));
    Ok(())
}

#[test]
fn compared(rt: HostRuntime) -> Result<(), Fail> {
    let turn = Call::Permute(&[1, 0]);
    let (mut output, mut other_output) = ([0; 64], [0; 64]);
    let (same, verdict) = same_cells(
        SHEET,
        &[turn, turn],
        SHEET,
        &[],
        &mut output,
        &mut other_output,
        &mut [],
    )?;
    assert!(rt; same);
    assert_eq!(rt; verdict, 1);
    let steps = Steps {
        order: &[1, 0],
        pairs: &[0, 2],
        targets: &[3, 2],
    };
    let (answers, same) = same_after_steps(
        SHEET,
        steps,
        SHEET,
        (turn, turn),
        &mut output,
        &mut [],
        &mut other_output,
        &mut [],
    )?;
    assert!(rt; answers.turned.is_ok() && answers.fused.is_err() && answers.stretched.is_ok());
    assert!(rt; !same);
    Ok(())
}

#[test]
fn kept(rt: HostRuntime) -> Result<(), Fail> {
    let (mut output, mut other_output) = ([0; 29], [0; 29]);
    let layout = SHEET.checked_in()?;
    let read = written_back(&layout, &mut output, &mut [])?;
    assert_eq!(rt; read.rank, 1);
    let end = written_again(&output, &mut other_output, &mut [])?;
    assert_eq!(rt; end, BytePlace(29));
    assert_eq!(rt; output, other_output);
    written_by_digits(&layout, &mut other_output, &mut [])?;
    assert_eq!(rt; output, other_output);
    Ok(())
}

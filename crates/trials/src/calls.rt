// Each call of the library, with arguments with which it succeeds.
use commands::layouts::Layouts;
use commands::memory::Memory;
use commands::obey::obey;
use layouts::{
    Axis, AxisPair, BytePlace, Call, Judgement, Layout, Reach, ReadingOffset, Refusal, Viewed,
    after, checked_col_major_strides, checked_element_count, checked_row_major_strides, copy,
    fuse_by_numbers, index_order_into, is_injective_axes, is_injective_layout, judge_layout,
    make_in_place, means, normal_form, read_record, run, same_readings, step_over, validate_bounds,
    write_record,
};
use lines::line::Line;
use lines::write::write_front;
use session::answer_text;
use spelling::number::{read_signed, read_unsigned};
use std::io::Write;
use std::test::Fail;
use words::word::first_words;

#[test]
fn views(rt: HostRuntime) -> Result<(), Fail> {
    let at = ReadingOffset(0);
    validate_bounds(6, at, &[2, 3], &[1, 2])?;
    assert_eq!(rt; checked_element_count(&[2, 3])?, 6);
    let sheet = Layout::new(6, at, &[2, 3], &[1, 2])?;
    assert_eq!(rt; sheet.indexed_offset(&[1, 2])?, ReadingOffset(5));
    assert_eq!(rt; sheet.reach()?, Reach::Between(at, ReadingOffset(5)));
    let turned = sheet.permute(&[1, 0]).accepted()?;
    assert_eq!(rt; turned.indexed_offset(&[2, 1])?, ReadingOffset(5));
    let tied = sheet.diagonal_view(&[AxisPair(0, 1)]).accepted()?;
    assert_eq!(rt; tied.indexed_offset(&[1])?, ReadingOffset(3));
    let row = Layout::new(3, at, &[1, 3], &[9, 1])?;
    let rows = row.broadcast(&[5, 3]).accepted()?;
    assert_eq!(rt; rows.indexed_offset(&[4, 2])?, ReadingOffset(2));
    let mut place = row;
    place.check_in(6, at, &[2, 3], &[1, 2])?;
    place.diagonal_in_place(&[AxisPair(0, 1)])?;
    place.broadcast_in_place(&[2])?;
    assert_eq!(rt; place.indexed_offset(&[1])?, ReadingOffset(3));
    Ok(())
}

#[test]
fn what_a_layout_tells(rt: HostRuntime) -> Result<(), Fail> {
    let alloc = rt.alloc();
    let sheet = Layout::new(6, ReadingOffset(4), &[2, 3], &[1, -2])?;
    assert_eq!(rt; sheet.rank(), 2);
    assert!(rt; !sheet.is_empty());
    let last = Axis {
        extent: 3,
        stride: -2,
    };
    assert_eq!(rt; sheet.axes()[1], last);
    let extents: Vec<u64> = sheet.extents().collect(alloc)?;
    assert_eq!(rt; extents.as_slice(), [2, 3].as_slice());
    let strides: Vec<i64> = sheet.strides().collect(alloc)?;
    assert_eq!(rt; strides.as_slice(), [1, -2].as_slice());
    let text = format!(in alloc; "{sheet} from {}", sheet.offset)?;
    assert_eq!(rt; text.as_str(), "6 4 2,3 1,-2 from 4");
    let mut same = sheet;
    same.axes[2] = last;
    assert!(rt; same == sheet);
    same.offset = ReadingOffset(5);
    assert!(rt; same != sheet);
    Ok(())
}

#[test]
fn verdicts_and_records(rt: HostRuntime) -> Result<(), Fail> {
    let sheet = Layout::new(6, ReadingOffset(0), &[2, 3], &[1, 2])?;
    let judged = is_injective_layout(&[2, 2, 2], &[2, 3, 5], &mut [])?;
    assert_eq!(rt; judged, Judgement::Repeated(1));
    assert_eq!(rt; judge_layout(&sheet, &mut [])?, Judgement::Distinct(0));
    assert_eq!(rt;
        is_injective_axes(&sheet.axes[..2], &mut [])?,
        Judgement::Distinct(0)
    );
    assert_eq!(rt; normal_form(&sheet)?.rank, 1);
    let mut bytes = [0; 29];
    let BytePlace(size) = write_record(&sheet, &mut bytes, &mut [])?;
    assert_eq!(rt; size, 29);
    let read = read_record(&bytes, &mut [])?;
    assert_eq!(rt; read.len, 6);
    assert_eq!(rt; step_over(&bytes), b"".as_slice());
    let turned = run(sheet, &[Call::Permute(&[1, 0])]);
    assert_eq!(rt; turned.indexed_offset(&[2, 1])?, ReadingOffset(5));
    let turn = Call::Permute(&[1, 0]);
    let viewed: Viewed = after(turned, turn);
    assert_eq!(rt; viewed.layout.axes[0], sheet.axes[0]);
    let mut other = [0; 29];
    let same = same_readings(
        sheet,
        &[turn, turn],
        sheet,
        &[],
        &mut bytes,
        &mut other,
        &mut [],
    )?;
    assert!(rt; same);
    let mut place = sheet;
    make_in_place(&mut place, turn)?;
    fuse_by_numbers(&mut place, &[0, 1])?;
    assert_eq!(rt; place.indexed_offset(&[1])?, ReadingOffset(3));
    Ok(())
}

#[test]
fn copies(rt: HostRuntime) -> Result<(), Fail> {
    let at = ReadingOffset(0);
    let shots = [1, 2, 3, 4, 5, 6];
    let mut sheet = [0; 6];
    // six shots in two columns of three, onto a sheet where each column is a row
    let columns = Layout::new(6, at, &[2, 3], &[1, 2])?;
    let rows = Layout::new(6, at, &[2, 3], &[3, 1])?;
    copy(&columns, &shots, &rows, &mut sheet, &mut [])?;
    assert_eq!(rt; sheet, [1, 3, 5, 2, 4, 6]);
    let turned = rows.permute(&[1, 0]).accepted()?;
    let other_extents = copy(&columns, &[0; 6], &turned, &mut sheet, &mut []);
    assert_eq!(rt; other_extents, Err(Refusal::ExtentsDiffer));
    let one_short = copy(&columns, &[0; 5], &rows, &mut sheet, &mut []);
    assert_eq!(rt; one_short, Err(Refusal::ShortReadings));
    let shared = Layout::new(6, at, &[2, 3], &[1, 1])?;
    let on_one_cell = copy(&columns, &[0; 6], &shared, &mut sheet, &mut []);
    assert_eq!(rt; on_one_cell, Err(Refusal::NotDistinct));
    assert_eq!(rt; sheet, [1, 3, 5, 2, 4, 6]);
    Ok(())
}

#[test]
fn means_over_faces(rt: HostRuntime) -> Result<(), Fail> {
    let at = ReadingOffset(0);
    // three points, each read in two faces, in tenths of a millimetre
    let readings = [105, 106, -104, -105, 220, 220];
    let faces = Layout::new(6, at, &[2, 3], &[1, 2])?;
    let mut out = [7; 4];
    assert_eq!(rt; means(&faces, 0, &readings, &mut out)?, 3);
    assert_eq!(rt; out, [106, -105, 220, 7]);
    let no_axis = means(&faces, 2, &readings, &mut out);
    assert_eq!(rt; no_axis, Err(Refusal::BadAxis(2, 2)));
    let one_short = means(&faces, 0, &[0; 5], &mut out);
    assert_eq!(rt; one_short, Err(Refusal::ShortReadings));
    let no_room = means(&faces, 1, &readings, &mut out[..1]);
    assert_eq!(rt; no_room, Err(Refusal::ShortOutput(2)));
    let none_read = Layout::new(6, at, &[0, 3], &[1, 2])?;
    let none_along = means(&none_read, 0, &readings, &mut out);
    assert_eq!(rt; none_along, Err(Refusal::EmptyAxis));
    let many_read = Layout::new(6, at, &[65_537, 0], &[1, 2])?;
    let too_many_along = means(&many_read, 0, &readings, &mut out);
    assert_eq!(rt; too_many_along, Err(Refusal::LongAxis));
    assert_eq!(rt; out, [106, -105, 220, 7]);
    Ok(())
}

#[test]
fn strides_and_numbers(rt: HostRuntime) -> Result<(), Fail> {
    assert_eq!(rt;
        checked_col_major_strides(&[2, 3, 4])?.as_slice(),
        [1, 2, 6].as_slice()
    );
    assert_eq!(rt;
        checked_row_major_strides(&[2, 3, 4])?.as_slice(),
        [12, 4, 1].as_slice()
    );
    let mut order = [0; 5];
    index_order_into(&[3, -1, 0, 3, 2], &mut order)?;
    assert_eq!(rt; order, [3, 1, 1, 3, 2]);
    assert_eq!(rt; read_unsigned(b"007"), Some(7));
    assert_eq!(rt; read_signed(b"-7"), Some(-7));
    Ok(())
}

#[test]
fn lines_and_commands(rt: HostRuntime) -> Result<(), Fail> {
    let alloc = rt.alloc();
    let mut input = b"row\t2,3\r\n".as_slice();
    let mut out = Vec::new(alloc);
    let mut line = Line::new();
    assert!(rt; line.read(&mut input, &mut out)?);
    let words = first_words(line.bytes.as_slice());
    let [name, texts @ ..] = words.as_slice() else {
        return Err(Fail::new("a line without words"));
    };
    let sheet = Layout::new(6, ReadingOffset(0), &[2, 3], &[1, 2])?;
    let mut layouts = Layouts {
        current: sheet,
        held: sheet,
    };
    let mut memory = Memory::new(alloc);
    let Ok(reply) = obey(alloc, &mut layouts, &mut memory, *name, texts) else {
        return Err(Fail::new("a line that is not obeyed"));
    };
    write!(out, "{reply}")?;
    write_front(&mut out, b".\n")?;
    answer_text(alloc, b"column 2,3\n\nrow 2,3", &mut out)?;
    assert_eq!(rt; out.as_slice(), b"3,1.\n1,2\n3,1\n".as_slice());
    Ok(())
}

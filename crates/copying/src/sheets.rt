//! Readings copied sheet by sheet: a sheet is the first two axes of a layout, and there is one from
//! each position of the other axes on.
ghost use Rattle.std.specs.Prelude.{◌≡◌, ◌<◌, ◌++◌, length, All};
ghost use Rattle.specification.specs.Axis.{extents, positions};
ghost use Rattle.specification.specs.Layout.{IsAccepted};
ghost use Rattle.view.specs.Model.{model_of};
ghost use Rattle.positions.specs.Positions.{StrideFits, place_at, IsPlacedIn};
ghost use Rattle.copying.specs.Copy.{copies};
ghost use Rattle.copying.specs.Sheets.{axes_of, all_axes, places_of, positions_of, sheet_axes, AreSheetsOf, AreAlike};

use crate::runs::{Run, copy_run};
use axis::Axis;
use positions::{Positions, strides_fit};
use view::layout::Layout;

/// Two axes: the run along each row, and from each row to the next.
#[derive(Clone, Copy)]
struct Sheet {
    run: Axis,
    rows: Axis,
}

/// Copies a sheet row by row, from a place in each buffer on.
fn copy_rows(from: &[i32], source: Sheet, place: u64, to: &mut [i32], destination: Sheet, into: u64)
    requires some { 0 < source.run.extent }
    requires alike { extents (axes_of destination) ≡ extents (axes_of source) }
    requires in_source { IsPlacedIn place (axes_of source) (length from.now) }
    requires in_destination { IsPlacedIn into (axes_of destination) (length to.old) }
    ensures { to.new ≡ copies (place_at place (axes_of source)) (place_at into (axes_of destination)) from.now
        (positions (axes_of source)) to.old }
{
    let row_step = source.rows.stride.cast_unsigned();
    let into_row_step = destination.rows.stride.cast_unsigned();
    let mut row = Run {
        place,
        step: source.run.stride.cast_unsigned(),
    };
    let mut into_row = Run {
        place: into,
        step: destination.run.stride.cast_unsigned(),
    };
    for _j in 0..source.rows.extent {
        copy_run(from, row, to, into_row, source.run.extent);
        row.place = row.place.wrapping_add(row_step);
        into_row.place = into_row.place.wrapping_add(into_row_step);
    }
}

/// The first two axes, and the others. For an axis that is missing there is one with one index.
fn sheet_and_others(axes: &[Axis]) -> (Sheet, &[Axis])
    ensures axes { axes_of result.0 ++ result.1.now ≡ sheet_axes axes.now }
    ensures fit { All StrideFits axes.now }
{
    strides_fit(axes);
    let one = Axis {
        extent: 1,
        stride: 0,
    };
    match axes {
        [run, rows, others @ ..] => (
            Sheet {
                run: *run,
                rows: *rows,
            },
            others,
        ),
        [run] => (
            Sheet {
                run: *run,
                rows: one,
            },
            &[],
        ),
        [] => (
            Sheet {
                run: one,
                rows: one,
            },
            &[],
        ),
    }
}

/// The sheets of a layout: its first two axes, the others, and the place of the first position.
#[derive(Clone, Copy)]
pub(crate) struct Sheets<'a> {
    sheet: Sheet,
    others: &'a [Axis],
    start: u64,
}

impl<'a> Sheets<'a> {
    /// The sheets of a layout that has a position.
    pub(crate) fn of(layout: &'a Layout) -> Sheets<'a>
        requires accepted { IsAccepted (model_of layout.now) }
        requires some { 0 < positions (model_of layout.now).axes }
        ensures { AreSheetsOf (model_of layout.now) result }
    {
        let (sheet, others) = sheet_and_others(layout.axes());
        Sheets {
            sheet,
            others,
            start: layout.offset.0.cast_unsigned(),
        }
    }
}

/// Copies the sheets of two layouts one after another; their extents are the same, and none is 0. It
/// is a call of its own, so that a copy of one sheet need not set up room for two walks.
#[inline(never)]
fn copy_walked<'a>(from: &[i32], source: Sheets<'a>, to: &mut [i32], destination: Sheets<'a>)
    requires suited { AreAlike source destination }
    requires in_source { IsPlacedIn source.start (all_axes source) (length from.now) }
    requires in_destination { IsPlacedIn destination.start (all_axes destination) (length to.old) }
    ensures { to.new ≡ copies (places_of source.entry) (places_of destination.entry) from.now (positions_of source.entry) to.old }
{
    let mut at = Positions::new(source.others, source.start);
    let mut into = Positions::new(destination.others, destination.start);
    let mut more = true;
    while more {
        copy_rows(
            from,
            source.sheet,
            at.place(),
            to,
            destination.sheet,
            into.place(),
        );
        more = at.next();
        into.next();
    }
}

/// Copies every position of two layouts; their extents are the same, and none is 0. One sheet needs
/// no walk.
pub(crate) fn copy_sheets<'a>(
    from: &[i32],
    source: Sheets<'a>,
    to: &mut [i32],
    destination: Sheets<'a>,
)
    requires suited { AreAlike source destination }
    requires in_source { IsPlacedIn source.start (all_axes source) (length from.now) }
    requires in_destination { IsPlacedIn destination.start (all_axes destination) (length to.old) }
    ensures { to.new ≡ copies (places_of source.entry) (places_of destination.entry) from.now (positions_of source.entry) to.old }
{
    if source.others.is_empty() {
        copy_rows(
            from,
            source.sheet,
            source.start,
            to,
            destination.sheet,
            destination.start,
        );
    } else {
        copy_walked(from, source, to, destination);
    }
}

// A layout drawn, and how the picture is printed.
ghost use Rattle.std.specs.Prelude.{◌≡◌, ◌<◌, ◌≤◌, length};
ghost use Rattle.specification.specs.Axis.{positions};
ghost use Rattle.specification.specs.Layout.{offset_at};
ghost use Rattle.view.specs.Answers.{outcome_by};
ghost use Rattle.view.specs.Model.{model_of};
ghost use Rattle.drawing.specs.Drawn.{drawn, offsets};
ghost use Rattle.drawing.specs.Pictured.{pictured};

use crate::cells::Cells;
use crate::drawing::{Drawing, Drawn, POSITIONS_MOST};
use crate::positions::index_of;
use crate::row::Row;
use arrayvec::ArrayVec;
use axis::Axis;
use std::fmt;
use view::count::element_count;
use view::layout::{Layout, ReadingOffset, Refusal};

/// What a layout is drawn as; refusals 1, 3, 8.
#[tactic(auto, using(crate::proofs::CallLaws::refused_handed, crate::proofs::CallLaws::refused_count, crate::proofs::CallLaws::too_large, crate::proofs::CallLaws::small_enough, crate::proofs::CallLaws::counted))]
pub fn draw(layout: &Layout) -> Result<Drawn, Refusal>
    ensures { outcome_by pictured result ≡ drawn (model_of layout.now) }
{
    layout.handed_refusal(0)?;
    let count = element_count(layout.axes())?;
    if POSITIONS_MOST < count {
        return Ok(Drawn::TooMany(count));
    }
    Ok(Drawn::Picture(Drawing {
        layout: *layout,
        count,
    }))
}

impl Drawing {
    // The axes: all have a place.
    #[tactic(auto, using(crate::proofs::PositionLaws::few_axes))]
    fn axes(&self) -> &[Axis]
        ensures all { result.now ≡ (model_of self.now.layout).axes }
        ensures few { length result.now ≤ 16 }
    {
        self.layout.axes()
    }

    // The offset at which a position stands.
    fn offset_of(&self, position: u64) -> i64
        requires { position < positions (model_of self.now.layout).axes }
        ensures { result ≡ offset_at (model_of self.now.layout) position }
    {
        let index = index_of(self.axes(), position);
        let ReadingOffset(offset) = self.layout.indexed_offset(index.as_slice()).unwrap();
        offset
    }

    // The offset of each position, in the order of positions.
    fn offsets(&self) -> ArrayVec<i64, 200>
        ensures { result.items ≡ offsets (model_of self.now.layout) }
    {
        let mut offsets = ArrayVec::new();
        for position in 0..self.count {
            offsets.push(self.offset_of(position));
        }
        offsets
    }
}

#[tactic(auto, unfolding(crate::specs::Drawn::picture_text))]
impl fmt::Display for Drawing {
    ghost use Rattle.std.specs.Prelude.{Some};
    ghost use Rattle.drawing.specs.Drawn.{picture_text};

    ghost output = { λ drawing. Some (picture_text (model_of drawing.layout)) };

    fn fmt<W: fmt::Write>(&self, f: &mut fmt::Formatter<W>) -> fmt::Result {
        let offsets = self.offsets();
        let cells = Cells::of(offsets.as_slice());
        write!(f, "cells {}", cells.count())?;
        for cell in cells {
            let row = Row {
                axes: self.axes(),
                offsets: offsets.as_slice(),
                cell,
            };
            write!(f, "\n{row}")?;
        }
        Ok(())
    }
}

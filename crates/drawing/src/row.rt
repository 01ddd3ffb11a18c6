// A cell and the positions that share it.
ghost use Rattle.std.specs.Prelude.{◌≡◌, ◌≤◌, length};
ghost use Rattle.specification.specs.Axis.{positions};

use crate::positions::index_of;
use axis::Axis;
use std::fmt;
use view::list::List;

/// A cell, among the offsets of all positions of some axes.
#[derive(Clone, Copy)]
pub struct Row<'a> {
    pub axes: &'a [Axis],
    pub offsets: &'a [i64],
    pub cell: i64,
    ghost few: { length axes.now ≤ 16 },
    ghost all: { length offsets.now ≡ positions axes.now },
}

impl Row<'_> {
    ghost use Rattle.std.specs.Prelude.{◌<◌, pos, slice_index_or};
    ghost use Rattle.std.specs.Ordering.{int_eq};

    // Whether a position stands at the cell.
    fn has(&self, position: usize) -> bool
        requires { position < length self.now.offsets.now }
        ensures { result ≡ int_eq (slice_index_or self.now.offsets.now position (pos 0)) self.now.cell }
    {
        self.offsets[position] == self.cell
    }
}

#[tactic(auto, unfolding(crate::specs::Drawn::row_text))]
impl fmt::Display for Row<'_> {
    ghost use Rattle.std.specs.Prelude.{Some};
    ghost use Rattle.drawing.specs.Drawn.{row_text};

    ghost output = { λ row. Some (row_text row.axes.now row.offsets.now row.cell) };

    fn fmt<W: fmt::Write>(&self, f: &mut fmt::Formatter<W>) -> fmt::Result {
        write!(f, "{}:", self.cell)?;
        for position in 0..self.offsets.len() {
            if self.has(position) {
                let index = index_of(self.axes, position as u64);
                write!(f, " {}", List(index.as_slice()))?;
            }
        }
        Ok(())
    }
}

//! How a layout and an offset are printed.
use crate::layout::{Layout, ReadingOffset};
use crate::list::{List, first};
use std::fmt;

impl fmt::Display for ReadingOffset {
    ghost use Rattle.std.specs.Prelude.{Some};
    ghost use Rattle.std.specs.Fmt.{signed_decimal};

    ghost output = { λ offset. Some (signed_decimal offset.0) };

    fn fmt<W: fmt::Write>(&self, f: &mut fmt::Formatter<W>) -> fmt::Result {
        write!(f, "{}", self.0)
    }
}

// LEN OFFSET EXTENTS STRIDES; above rank 16 the sixteen axes that there are.
impl fmt::Display for Layout {
    ghost use Rattle.std.specs.Prelude.{Some};
    ghost use Rattle.view.specs.Model.{model_of};
    ghost use Rattle.view.specs.Printed.{layout_text};

    ghost output = { λ layout. Some (layout_text (model_of layout)) };

    fn fmt<W: fmt::Write>(&self, f: &mut fmt::Formatter<W>) -> fmt::Result {
        let extents = self.axes.map(|axis| axis.extent);
        let strides = self.axes.map(|axis| axis.stride);
        let extents = List(first(self.rank, &extents));
        let strides = List(first(self.rank, &strides));
        write!(f, "{} {} {extents} {strides}", self.len, self.offset)
    }
}

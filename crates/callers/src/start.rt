//! A sheet as a caller is told of it, and its check-in.
ghost use Rattle.std.specs.Prelude.{◌≡◌, IsOk, IfOk};
ghost use Rattle.specification.specs.Layout.{IsAccepted};
ghost use Rattle.view.specs.Model.{model_of};
ghost use Rattle.callers.specs.Sheets.{sheet_of, IsFit};

use specification::layouts_hold;
use view::layout::{Layout, ReadingOffset, Refusal};

/// Where the readings of a sheet are said to stand in a buffer. Nothing of it was checked.
#[derive(Clone, Copy, Debug)]
pub struct Sheet<'a> {
    /// How many readings the buffer holds.
    pub len: u64,
    /// Where the reading stands whose indices are all 0.
    pub offset: ReadingOffset,
    /// How many indices each axis has.
    pub extents: &'a [u64],
    /// How far apart two neighbours on an axis are.
    pub strides: &'a [i64],
}

impl Sheet<'_> {
    /// The layout of the sheet, each of whose offsets is in the buffer; refused only if check-in refuses the sheet.
    pub fn checked_in(self) -> Result<Layout, Refusal>
        ensures layout { IfOk result (λ layout. model_of layout ≡ sheet_of self.entry) }
        ensures accepted { IfOk result (λ layout. IsAccepted (model_of layout)) }
        ensures answered { IsFit self.entry → IsOk result }
    {
        layouts_hold();
        Layout::new(self.len, self.offset, self.extents, self.strides)
    }
}

//! A layout as a picture.
ghost use Rattle.std.specs.Prelude.{◌≡◌, ◌≤◌};
ghost use Rattle.specification.specs.Axis.{positions};
ghost use Rattle.specification.specs.Layout.{handed};
ghost use Rattle.specification.specs.Outcome.{pass};
ghost use Rattle.view.specs.Model.{model_of};

use view::layout::Layout;

/// The most positions of a picture.
pub const POSITIONS_MOST: u64 = 200;

/// A layout with few positions: it prints as a picture.
#[derive(Clone, Copy)]
pub struct Drawing {
    pub(crate) layout: Layout,
    pub(crate) count: u64,
    ghost accepted: { handed (model_of layout) 0 ≡ pass },
    ghost counted: { positions (model_of layout).axes ≡ count },
    ghost few: { count ≤ 200 },
}

/// What a layout is drawn as.
#[derive(Clone, Copy)]
pub enum Drawn {
    /// A picture of it.
    Picture(Drawing),
    /// How many positions it has: too many for a picture.
    TooMany(u64),
}

//! An axis of a strided layout, and an active axis as the verdict looks at it.
#![tactic(auto)]

/// An axis of a layout. It crosses to C as it is.
#[repr(C)]
#[derive(Clone, Copy, Debug, PartialEq, Eq)]
pub struct Axis {
    /// How many indices there are, from 0 on. With 0 the layout has no position.
    pub extent: u64,
    /// How many readings the next index lies further on; below 0 it lies before.
    pub stride: i64,
}

impl Axis {
    /// What stands in places that hold no axis: extent and stride 0.
    pub const NONE: Axis = Axis {
        extent: 0,
        stride: 0,
    };
}

/// An axis whose extent is above 1, as the verdict looks at it.
#[derive(Clone, Copy, Debug, PartialEq, Eq)]
pub struct ActiveAxis {
    /// Its number in the layout.
    pub axis: usize,
    /// Its extent.
    pub extent: u64,
    /// Its stride in readings, without its sign.
    pub stride: u64,
}

impl ActiveAxis {
    /// No active axis: what stands in a room for active axes until they are there.
    pub const NONE: ActiveAxis = ActiveAxis {
        axis: 0,
        extent: 0,
        stride: 0,
    };
}

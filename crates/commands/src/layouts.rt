// The two layouts that the program keeps.
use view::layout::Layout;

/// The layout that commands ask and change, and the one that `hold` has kept for `copy`.
#[derive(Clone, Copy)]
pub struct Layouts {
    pub current: Layout,
    pub held: Layout,
}

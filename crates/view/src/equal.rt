//! When two layouts are equal.
use crate::layout::Layout;

// By their meaning: places past the rank do not count.
impl PartialEq for Layout {
    ghost use Rattle.std.specs.Prelude.{◌≡◌, ◌↔◌, IsTrue};
    ghost use Rattle.std.specs.Cmp.Rules.{comparing};
    ghost use Rattle.std.proofs.Common.{rules};
    ghost use Rattle.view.specs.Equal.{are_equal};
    ghost use Rattle.view.specs.Model.{model_of};

    ghost eq = { are_equal };

    ghost laws = { Prim.search (comparing, rules) depth 12 };

    fn eq(&self, other: &Layout) -> bool
        ensures told { result ≡ are_equal self.now other.now }
        ensures same { IsTrue result ↔ model_of self.now ≡ model_of other.now }
    {
        self.len == other.len
            && self.offset == other.offset
            && self.rank == other.rank
            && self.axes() == other.axes()
    }
}

impl Eq for Layout {
    ghost use Rattle.std.specs.Cmp.Rules.{comparing};
    ghost use Rattle.std.proofs.Common.{rules};

    ghost laws = { Prim.search (comparing, rules) depth 12 };
}

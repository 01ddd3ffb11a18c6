//! The two axes that are set apart, set up for the walk.
ghost use Rattle.std.specs.Prelude.{◌≡◌, ◌⊎◌, IsTrue, IsFalse, true, ◌/◌, ◌<◌, ◌≤◌};
ghost use Rattle.integer.specs.Gcd.{gcd};
ghost use Rattle.specification.specs.Search.{two_distinct};
ghost use Rattle.search.specs.Block.{Side};
ghost use Rattle.search.specs.SetUp.{IsSetFor};

use axis::ActiveAxis;
use walk::TwoAxes;

// Which of two axes of extents d1 and d2 the walk solves for: one whose differences stay below the other's stride over g.
// If both do, the one with the fewer differences to that quotient: its window is narrower, and rules out more vectors.
fn solves_first(d1: u64, s2g: u64, d2: u64, s1g: u64) -> bool
    requires one_fits { (d1 ≤ s2g) ⊎ (d2 ≤ s1g) }
    requires first_long { 1 < d1 }
    requires second_long { 1 < d2 }
    ensures first { IsTrue result → d1 ≤ s2g }
    ensures second { IsFalse result → d2 ≤ s1g }
{
    d1 <= s2g && (s1g < d2 || s2g / (d1 - 1) >= s1g / (d2 - 1))
}

// The two axes set up for the walk, solved for one of them; they do not collide by themselves, and g is the greatest common
// divisor of their strides.
#[tactic(auto, using(crate::proofs::Coupling::quotients), unfolding(specification::specs::Search::two_distinct))]
pub fn couple(a: ActiveAxis, b: ActiveAxis, g: u64) -> TwoAxes
    requires sides { Side a.extent a.stride × Side b.extent b.stride }
    requires distinct { two_distinct a b ≡ true }
    requires divisor { g ≡ gcd a.stride b.stride }
    ensures { IsSetFor a b result ⊎ IsSetFor b a result }
{
    if solves_first(a.extent, b.stride / g, b.extent, a.stride / g) {
        TwoAxes::solved_for(a, b)
    } else {
        TwoAxes::solved_for(b, a)
    }
}

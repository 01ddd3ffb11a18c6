// The two parts of a block's axes, and the walks over their differences: the distances of the first part are put into a table,
// and those of the second are looked up there.
ghost use Rattle.std.specs.Prelude.{◌≡◌, ◌↔◌, ◌+◌, ◌*◌, ◌<◌, ◌≤◌, ◌^◌, length, IsTrue, IsNone, IfSome};
ghost use Rattle.specification.specs.Search.{total, box};
ghost use Rattle.differences.specs.Differences.{IsWalkable, IsDistance, Meets};
ghost use Rattle.enumeration.specs.Parts.{SplitFor, AreDistances, MeetsNumbers};

use crate::table::Table;
use axis::ActiveAxis;
use differences::Differences;
use differences::boxes::{box_within, with_axis};

// How many axes the first part has, and how many difference vectors.
#[derive(Clone, Copy)]
pub struct Split {
    pub place: usize,
    pub vectors: u64,
}

// The longest first part that has room in so many words, and no more difference vectors than the rest. Any other would be as right.
#[tactic(auto, unfolding(specification::specs::Axis::product), using(differences::proofs::BoxLaws::cuts))]
pub fn split_axes(axes: &[ActiveAxis], words: usize) -> Split
    requires some { 0 < total axes.now }
    requires words { 0 < words }
    ensures { SplitFor axes.now words result.place result.vectors }
{
    let most = (words - words / 2) as u64;
    let mut vectors: u64 = 1;
    for (place, axis) in axes.iter().enumerate() {
        let Some(next) = with_axis(vectors, axis.extent, most) else {
            return Split { place, vectors };
        };
        if box_within(&axes[place + 1..], next).is_some_and(|rest| rest < next) {
            return Split { place, vectors };
        }
        vectors = next;
    }
    Split {
        place: axes.len(),
        vectors,
    }
}

// The distances of the part in a table, in words that hold anything; `None` if one is 0.
#[tactic(auto, using(crate::proofs::Visits::visits))]
fn fill<'a>(axes: &[ActiveAxis], words: &'a mut [u64]) -> Option<Table<'a>>
    requires walkable { IsWalkable axes.now }
    requires room { box axes.now ≤ length words.old }
    ensures zero { IsNone result ↔ IsDistance axes.now 0 }
    ensures filled { IfSome result (λ table. AreDistances axes.now table.numbers) }
{
    let mut table = Table::new(words);
    let mut differences = Differences::new(axes);
    while let Some(distance) = differences.next() {
        if distance == 0 {
            return None;
        }
        table.put(distance);
    }
    Some(table)
}

// Whether some distance of the part is 0, or one that the table holds.
#[tactic(auto, using(crate::proofs::Visits::visits))]
fn meets(axes: &[ActiveAxis], table: &Table) -> bool
    requires { IsWalkable axes.now }
    ensures { IsTrue result ↔ MeetsNumbers axes.now table.now.numbers }
{
    let mut differences = Differences::new(axes);
    while let Some(distance) = differences.next() {
        if distance == 0 || table.holds(distance) {
            return true;
        }
    }
    false
}

// Whether two index vectors of both parts together have one sum, in words that hold anything, at least as many as the first
// part has difference vectors.
pub fn meet(first: &[ActiveAxis], second: &[ActiveAxis], words: &mut [u64]) -> bool
    requires first { IsWalkable first.now }
    requires second { IsWalkable second.now }
    requires room { box first.now ≤ length words.old }
    ensures { IsTrue result ↔ Meets first.now second.now }
{
    match fill(first, words) {
        None => true,
        Some(table) => meets(second, &table),
    }
}

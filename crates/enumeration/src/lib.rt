//! Whether two positions of a block have one sum, settled in words that the caller lends.
//!
//! Only existence is asked, so the positions are not walked one by one. The axes are split into two parts; two positions have one sum
//! exactly if 0 is a distance of one part, or some number is a distance of both. The distances of the first part go into a table in
//! the scratch that the caller lends, and those of the second are looked up there.
//!
//! The cost is a step for each difference vector above zero of either part, and for each a look at a word or a few. Of twelve axes of
//! extent 4 that is 58,824 for a part, in place of 16,777,216 positions. The words are as many as the definition asks for; more would
//! only make the first part longer.
//!
//! That the answer is the definition's is the contract of `enumerate`. docs/WHY.md, "Enumeration", explains why the parts may be asked
//! for the whole, with a small case by hand.
#![tactic(auto)]

mod parts;
mod table;

ghost use Rattle.std.specs.Prelude.{◌≡◌, ◌↔◌, ◌<◌, ◌≤◌, length, IsTrue};
ghost use Rattle.specification.specs.Search.{total as total_of, span_sum, words_for, SameSum};
ghost use Rattle.specification.specs.Verdict.{enumerated, carry_out, freed_by, ScratchAfter};
ghost use Rattle.differences.specs.Differences.{IsWalkable};
ghost use Rattle.enumeration.specs.Enumeration.{outcome_of};

use crate::parts::{Split, meet, split_axes};
use axis::ActiveAxis;

// How many words the enumeration needs.
#[tactic(auto, unfolding(specification::specs::Search::words_for))]
fn words_needed(total: u64, span: u64) -> u64
    ensures { result ≡ words_for total span }
{
    let words = span / 64;
    if words <= total { words + 1 } else { total }
}

// Whether two positions have one sum, in lent words whatever they hold: the axes in two parts, whose distances meet. More words
// only make the first part longer.
#[tactic(auto, using(differences::proofs::Meeting::cut_at))]
fn has_equal_sums(block: &[ActiveAxis], words: &mut [u64]) -> bool
    requires walkable { IsWalkable block.now }
    requires words { 0 < length words.old }
    ensures { IsTrue result ↔ SameSum block.now }
{
    let Split { place, vectors } = split_axes(block, words.len());
    let (first, second) = block.split_at(place);
    let room = (2 * vectors - 1) as usize;
    meet(first, second, &mut words[..room])
}

/// The enumeration of a block of at most 16 axes with its total and its span: `Ok(true)` if no two positions have one sum,
/// `Ok(false)` if two have. Only the words needed are lent on, so the others stay as they are; on `Err`, which has their
/// number, all do.
#[tactic(auto, using(crate::proofs::OutcomeLaws::outcomes), unfolding(specification::specs::Verdict::freed_by))]
pub fn enumerate(
    block: &[ActiveAxis],
    total: u64,
    span: u64,
    scratch: &mut [u64],
) -> Result<bool, u64>
    requires few { length block.now ≤ 16 }
    requires some { 0 < total }
    requires total { total ≡ total_of block.now }
    requires span { span ≡ span_sum block.now }
    ensures outcome { outcome_of (words_for total span) result ≡ carry_out (length scratch.old) (enumerated block.now) }
    ensures scratch { ScratchAfter (freed_by (carry_out (length scratch.old) (enumerated block.now))) scratch.old scratch.new }
{
    let need = words_needed(total, span);
    if (scratch.len() as u64) < need {
        return Err(need);
    }
    let words = need as usize;
    let repeated = has_equal_sums(block, &mut scratch[..words]);
    Ok(!repeated)
}

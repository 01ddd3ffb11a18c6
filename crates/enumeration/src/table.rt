// A table of numbers above 0 in lent words, where a word of 0 is free. Each number has a home; it stands there, or in the first
// word behind that was free when it was put. Words behind the homes take what comes last.
ghost use Rattle.std.specs.Prelude.{◌≡◌, ◌+◌, ◌/◌, ◌<◌, ◌≤◌, length, IfOk, IfErr};
ghost use Rattle.std.specs.FinSet.{empty, insert, contains};
ghost use Rattle.enumeration.specs.Homes.{home_of, IsNumberAt, IsPlaceFor};

use std::marker::Model;

// 2 ^ 32: a word has its low half as the remainder by it, and its high half as the quotient.
const HALF: u64 = 1 << 32;

// The home of n: what two products leave, so that numbers in a pattern do not crowd.
#[tactic(auto, unfolding(crate::specs::Homes::home_of))]
fn home(homes: u64, n: u64) -> u64
    requires { 0 < homes }
    ensures value { result ≡ home_of homes n }
    ensures below { result < homes }
{
    let spread = (n % HALF) * 2654435769 + (n / HALF) * 1597334677;
    let again = (spread / 65536 % HALF) * 2246822519;
    again / 65536 % homes
}

// Where n stands; on `Err` the first free word from its home on, or the end of the words if there is none.
fn find(words: &[u64], homes: u64, n: u64) -> Result<usize, usize>
    requires some { 0 < homes }
    requires within { homes ≤ length words.now }
    ensures found { IfOk result (λ place. IsNumberAt words.now n place) }
    ensures missed { IfErr result (λ place. IsPlaceFor homes words.now n place) }
{
    for i in home(homes, n) as usize..words.len() {
        let word = words[i];
        if word == 0 {
            return Err(i);
        }
        if word == n {
            return Ok(i);
        }
    }
    Err(words.len())
}

// The numbers are a set, of which a caller knows for how many more there is room at least.
#[derive(Drop)]
pub struct Table<'a> {
    words: &'a mut [u64],
    homes: u64,
    most: u64,
}

impl<'a> Model for Table<'a> {
    ghost use Rattle.enumeration.specs.Homes.{Held, held_code};

    ghost Value = { Held };

    ghost coded = { held_code };

    ghost use Rattle.enumeration.specs.Sound.{view_of, IsSound};

    ghost view = { view_of };

    ghost invariant = { IsSound };
}

impl<'a> Table<'a> {
    // The empty table, in words that hold anything. Half of them are homes.
    pub fn new(words: &'a mut [u64]) -> Table<'a>
        requires { 0 < length words.old }
        ensures { result ≡ record { numbers = empty; room = length words.old / 2 } }
    {
        words.fill(0);
        let homes = (words.len() - words.len() / 2) as u64;
        Table {
            words,
            homes,
            most: 0,
        }
    }

    // Puts n into the first free word from its home on, unless it is there.
    pub fn put(&mut self, n: u64)
        requires above { 0 < n }
        requires room { 0 < self.old.room }
        ensures numbers { self.new.numbers ≡ insert self.old.numbers n }
        ensures room { self.old.room ≤ self.new.room + 1 }
    {
        let homes = self.homes;
        let words = &mut *self.words;
        let Err(place) = find(words, homes, n) else {
            return;
        };
        words[place] = n;
        self.most = self.most.max(n);
    }

    // Whether the table holds n. Most numbers that it does not hold are above all that it does.
    pub fn holds(&self, n: u64) -> bool
        ensures { result ≡ contains self.now.numbers n }
    {
        n <= self.most && find(self.words, self.homes, n).is_ok()
    }
}

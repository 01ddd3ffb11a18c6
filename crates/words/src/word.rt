// Words of a line, and what they spell.
ghost use Rattle.std.specs.Prelude.{◌≡◌, ◌≤◌, IfOk, length, map, take, vec_len};
ghost use Rattle.std.specs.Io.BufRead.{strip_last};
ghost use Rattle.std.specs.List.{list_all};
ghost use Rattle.hex.specs.Hex.{is_hex_digit};
ghost use Rattle.words.specs.Texts.{fault_text, word_count};
ghost use Rattle.words.specs.Words.{Tells, Gives, is_space, words, numbered, numbered_if, no_word, one_word, two_words, three_words, four_words, up_to_one_word, one_or_two_words, two_or_three_words, is_none, entries, one_of, list_of, listed, bytes_of};

use crate::fault::{Fault, Problem};
use crate::phrase::Miscount;
use crate::place::{Place, Word};
use crate::spelled::Spelled;
use arrayvec::ArrayVec;
use hex::FromHexError;
use std::alloc::{AllocError, Global};

/// The most entries of a list.
pub const ENTRIES_MOST: usize = 64;

/// The most words of a line that are looked at: a name and, behind it, one word more than any command takes.
pub const WORDS_MOST: usize = 6;

/// The words behind the name of a command, and how the command is used.
#[derive(Clone, Copy)]
pub struct Words<'a> {
    pub usage: &'static str,
    pub texts: &'a [&'a [u8]],
}

fn is_space(byte: u8) -> bool
    ensures { result ≡ is_space byte }
{
    byte == b' ' || byte == b'\t'
}

// A line without the carriage return at its end.
fn without_return(line: &[u8]) -> &[u8]
    ensures { result.now ≡ strip_last 13 line.now }
{
    match line {
        [front @ .., b'\r'] => front,
        [..] => line,
    }
}

// Whether each byte is a hexadecimal digit.
fn are_hex_digits(text: &[u8]) -> bool
    ensures { result ≡ list_all is_hex_digit text.now }
{
    text.iter().all(|byte| byte.is_ascii_hexdigit())
}

/// The first words between the spaces of a line, at most six.
pub fn first_words(line: &[u8]) -> ArrayVec<&[u8], WORDS_MOST>
    ensures { map (λ text. text.now) result.items ≡ take 6 (words line.now) }
{
    let mut first = ArrayVec::new();
    let words = without_return(line)
        .split(|byte| is_space(*byte))
        .filter(|text| !text.is_empty());
    // no more come than fit
    let _ = first.extend(words.take(WORDS_MOST));
    first
}

impl<'a> Words<'a> {
    // The fault of a line with another number of words than a command takes.
    fn miscounted(self, least: usize, most: usize) -> Fault<'a>
        ensures { fault_text result ≡ word_count self.entry.usage.now least most
            (length (map (λ text. text.now) self.entry.texts.now)) }
    {
        Fault::WordCount(Miscount {
            usage: self.usage,
            least,
            most,
            given: self.texts.len(),
        })
    }

    #[tactic(auto, unfolding(crate::specs::Words::no_word))]
    pub fn none(self) -> Result<(), Fault<'a>>
        ensures { Tells (λ none. none) result
            (no_word self.entry.usage.now (map (λ text. text.now) self.entry.texts.now)) }
    {
        match self.texts {
            [] => Ok(()),
            [..] => Err(self.miscounted(0, 0)),
        }
    }

    #[tactic(auto, unfolding(crate::specs::Words::one_word))]
    pub fn one(self) -> Result<Word<'a>, Fault<'a>>
        ensures { Tells numbered result
            (one_word self.entry.usage.now (map (λ text. text.now) self.entry.texts.now)) }
    {
        match self.texts {
            [a] => Ok(Word::new(2, *a)),
            [..] => Err(self.miscounted(1, 1)),
        }
    }

    #[tactic(auto, unfolding(crate::specs::Words::two_words))]
    pub fn two(self) -> Result<(Word<'a>, Word<'a>), Fault<'a>>
        ensures { Tells (λ w. (numbered w.0, numbered w.1)) result
            (two_words self.entry.usage.now (map (λ text. text.now) self.entry.texts.now)) }
    {
        match self.texts {
            [a, b] => Ok((Word::new(2, *a), Word::new(3, *b))),
            [..] => Err(self.miscounted(2, 2)),
        }
    }

    #[tactic(auto, unfolding(crate::specs::Words::three_words))]
    pub fn three(self) -> Result<(Word<'a>, Word<'a>, Word<'a>), Fault<'a>>
        ensures { Tells (λ w. (numbered w.0, numbered w.1, numbered w.2)) result
            (three_words self.entry.usage.now (map (λ text. text.now) self.entry.texts.now)) }
    {
        match self.texts {
            [a, b, c] => Ok((Word::new(2, *a), Word::new(3, *b), Word::new(4, *c))),
            [..] => Err(self.miscounted(3, 3)),
        }
    }

    #[tactic(auto, unfolding(crate::specs::Words::four_words))]
    pub fn four(self) -> Result<(Word<'a>, Word<'a>, Word<'a>, Word<'a>), Fault<'a>>
        ensures { Tells (λ w. (numbered w.0, numbered w.1, numbered w.2, numbered w.3)) result
            (four_words self.entry.usage.now (map (λ text. text.now) self.entry.texts.now)) }
    {
        match self.texts {
            [a, b, c, d] => Ok((
                Word::new(2, *a),
                Word::new(3, *b),
                Word::new(4, *c),
                Word::new(5, *d),
            )),
            [..] => Err(self.miscounted(4, 4)),
        }
    }

    /// One word, which may be left out.
    #[tactic(auto, unfolding(crate::specs::Words::up_to_one_word))]
    pub fn up_to_one(self) -> Result<Option<Word<'a>>, Fault<'a>>
        ensures { Tells numbered_if result
            (up_to_one_word self.entry.usage.now (map (λ text. text.now) self.entry.texts.now)) }
    {
        match self.texts {
            [] => Ok(None),
            [a] => Ok(Some(Word::new(2, *a))),
            [..] => Err(self.miscounted(0, 1)),
        }
    }

    /// Two words, of which the second may be left out.
    #[tactic(auto, unfolding(crate::specs::Words::one_or_two_words))]
    pub fn one_or_two(self) -> Result<(Word<'a>, Option<Word<'a>>), Fault<'a>>
        ensures { Tells (λ w. (numbered w.0, numbered_if w.1)) result
            (one_or_two_words self.entry.usage.now (map (λ text. text.now) self.entry.texts.now)) }
    {
        match self.texts {
            [a] => Ok((Word::new(2, *a), None)),
            [a, b] => Ok((Word::new(2, *a), Some(Word::new(3, *b)))),
            [..] => Err(self.miscounted(1, 2)),
        }
    }

    /// Three words, of which the third may be left out.
    #[tactic(auto, unfolding(crate::specs::Words::two_or_three_words))]
    pub fn two_or_three(self) -> Result<(Word<'a>, Word<'a>, Option<Word<'a>>), Fault<'a>>
        ensures { Tells (λ w. (numbered w.0, numbered w.1, numbered_if w.2)) result
            (two_or_three_words self.entry.usage.now (map (λ text. text.now) self.entry.texts.now)) }
    {
        match self.texts {
            [a, b] => Ok((Word::new(2, *a), Word::new(3, *b), None)),
            [a, b, c] => Ok((Word::new(2, *a), Word::new(3, *b), Some(Word::new(4, *c)))),
            [..] => Err(self.miscounted(2, 3)),
        }
    }
}

impl<'a> Word<'a> {
    pub fn new(number: usize, text: &'a [u8]) -> Word<'a>
        ensures { numbered result ≡ (number, text.now) }
    {
        Word { number, text }
    }

    // Whether the word stands for no entry and no byte.
    fn is_none(self) -> bool
        ensures { result ≡ is_none self.entry.text.now }
    {
        matches!(self.text, [b'-'])
    }

    /// What the word spells.
    pub fn one<T: Spelled>(self) -> Result<T, Fault<'a>>
        ensures { Tells (λ x. x) result (one_of T.spelled T.form (numbered self.entry)) }
    {
        match T::read(self.text) {
            Some(x) => Ok(x),
            None => Err(Fault::Misspelled(Place::Word(self), T::form())),
        }
    }

    // The texts of a list's entries.
    fn entries(self, alloc: Global) -> Result<Vec<&'a [u8]>, AllocError>
        ensures { IfOk result (λ v. map (λ text. text.now) v.items ≡ entries self.entry.text.now) }
    {
        if self.is_none() {
            return Ok(Vec::new(alloc));
        }
        self.text.split(|byte| *byte == b',').collect(alloc)
    }

    /// What the entries of a list spell, at most 64.
    #[tactic(auto, using(std::proofs::lemmas::Grind::common_steps), unfolding(crate::specs::Words::list_of))]
    pub fn list<T: Spelled>(self, alloc: Global) -> Result<Vec<T>, Problem<'a>>
        ensures spelled { Gives (λ v. v.items) result
            (list_of T.spelled T.form (numbered self.entry)) }
        ensures few { IfOk result (λ v. vec_len v ≤ 64) }
    {
        let entries = self.entries(alloc)?;
        if ENTRIES_MOST < entries.len() {
            return Err(Fault::ManyEntries(self).into());
        }
        spelled_by(alloc, self.number, entries.as_slice())
    }

    /// The bytes that pairs of hexadecimal digits write.
    #[tactic(auto, unfolding(crate::specs::Words::bytes_of))]
    pub fn bytes(self, alloc: Global) -> Result<Vec<u8>, Problem<'a>>
        ensures { Gives (λ v. v.items) result (bytes_of (numbered self.entry)) }
    {
        if self.is_none() {
            return Ok(Vec::new(alloc));
        }
        match hex::decode(alloc, self.text) {
            Ok(bytes) => Ok(bytes),
            Err(FromHexError::OutOfMemory) => Err(Problem::Memory),
            Err(_) if are_hex_digits(self.text) => Err(Fault::OddDigits(self).into()),
            Err(_) => Err(Fault::BadDigit(self).into()),
        }
    }
}

// What each entry of the word of a number spells.
fn spelled_by<'a, T: Spelled>(
    alloc: Global,
    word: usize,
    entries: &[&'a [u8]],
) -> Result<Vec<T>, Problem<'a>>
    ensures spelled { Gives (λ v. v.items) result
        (listed T.spelled T.form word 1 (map (λ text. text.now) entries.now)) }
    ensures each { IfOk result (λ v. vec_len v ≡ length entries.now) }
{
    let mut list = Vec::new(alloc);
    for text in entries {
        match T::read(*text) {
            Some(x) => list.push(x)?,
            None => {
                let place = Place::Entry(word, Word::new(list.len() + 1, *text));
                return Err(Problem::Told(Fault::Misspelled(place, T::form())));
            }
        }
    }
    Ok(list)
}

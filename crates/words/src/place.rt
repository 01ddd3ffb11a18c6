// Where something stands in a line, and how an error shows what stands there.
ghost use Rattle.std.specs.Prelude.{◌≡◌, [], codes, length, nat_lt, if◌then◌else◌};

use crate::shown::Shown;
use bstr::ByteSlice;
use std::fmt;
use view::list::first;

// The most bytes of a word that an error shows.
const SHOWN_BYTES: usize = 32;

/// A word with its number in the line, or an entry with its number in a list, counted from 1.
#[derive(Clone, Copy)]
pub struct Word<'a> {
    pub number: usize,
    pub text: &'a [u8],
}

/// A word of the line, or an entry of the list that the word of a number is.
#[derive(Clone, Copy)]
pub enum Place<'a> {
    Word(Word<'a>),
    Entry(usize, Word<'a>),
}

// What an error shows behind the front of a text.
fn dots_behind(text: &[u8]) -> &'static str
    ensures { result.now ≡ (if nat_lt 32 (length text.now) then codes ".." else []) }
{
    if SHOWN_BYTES < text.len() { ".." } else { "" }
}

// The front of a text, what cannot be seen in it escaped.
#[derive(Clone, Copy)]
struct Excerpt<'a>(&'a [u8]);

#[tactic(auto, unfolding(crate::specs::Texts::excerpt))]
impl fmt::Display for Excerpt<'_> {
    ghost use Rattle.std.specs.Prelude.{Some};
    ghost use Rattle.words.specs.Texts.{excerpt};

    ghost output = { λ text. Some (excerpt text.0.now) };

    fn fmt<W: fmt::Write>(&self, f: &mut fmt::Formatter<W>) -> fmt::Result {
        for character in first(SHOWN_BYTES, self.0).escape_bytes() {
            write!(f, "{}", Shown(character))?;
        }
        f.write_str(dots_behind(self.0))
    }
}

impl fmt::Display for Word<'_> {
    ghost use Rattle.std.specs.Prelude.{Some};
    ghost use Rattle.words.specs.Texts.{at_number};

    ghost output = { λ word. Some (at_number word.number word.text.now) };

    fn fmt<W: fmt::Write>(&self, f: &mut fmt::Formatter<W>) -> fmt::Result {
        write!(f, "{} ({})", self.number, Excerpt(self.text))
    }
}

#[tactic(auto, unfolding(crate::specs::Texts::at_word, crate::specs::Texts::at_entry))]
impl fmt::Display for Place<'_> {
    ghost use Rattle.std.specs.Prelude.{Some};
    ghost use Rattle.words.specs.Texts.{place_text};

    ghost output = { λ place. Some (place_text place) };

    fn fmt<W: fmt::Write>(&self, f: &mut fmt::Formatter<W>) -> fmt::Result {
        match self {
            Place::Word(word) => write!(f, "word {word}"),
            Place::Entry(word, entry) => write!(f, "word {word}, entry {entry}"),
        }
    }
}

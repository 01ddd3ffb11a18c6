// Why a line is not obeyed: its words are no command, or the library refuses it.
ghost use Rattle.std.specs.Prelude.{◌≡◌};
ghost use Rattle.words.specs.declared.fault.Fault.TheVariants.{Refused};
ghost use Rattle.words.specs.declared.fault.Problem.TheVariants.{Memory, Told};

use crate::phrase::{Commas, Found, Miscount, Misfit, Wanted, WayOn};
use crate::place::{Place, Word};
use std::alloc::{AllocError, AllocFailed};
use std::fmt;
use view::layout::Refusal;

/// What a word, or an entry of a list, should have spelled.
#[derive(Clone, Copy)]
pub enum Form {
    Unsigned,
    Signed,
    Pair,
    Lent,
    Reading,
}

/// What a line is answered that is not obeyed.
#[derive(Clone, Copy)]
pub enum Fault<'a> {
    LongLine,
    UnknownCommand(Word<'a>),
    UnknownTopic(Word<'a>),
    WordCount(Miscount),
    UnequalLists,
    Misspelled(Place<'a>, Form),
    ManyEntries(Word<'a>),
    OddDigits(Word<'a>),
    BadDigit(Word<'a>),
    TooManyToDraw(u64),
    Refused(Refusal),
}

/// A fault is reported and the next line follows. If memory runs out, the program ends.
#[derive(Clone, Copy)]
pub enum Problem<'a> {
    Memory,
    Told(Fault<'a>),
}

impl<'a> From<Refusal> for Fault<'a> {
    ghost from_gives = { λ why fault. fault ≡ Refused why };

    fn from(why: Refusal) -> Fault<'a> {
        Fault::Refused(why)
    }
}

impl<'a> From<Fault<'a>> for Problem<'a> {
    ghost from_gives = { λ fault p. p ≡ Told fault };

    fn from(fault: Fault<'a>) -> Problem<'a> {
        Problem::Told(fault)
    }
}

impl<'a> From<Refusal> for Problem<'a> {
    ghost from_gives = { λ why p. p ≡ Told (Refused why) };

    fn from(why: Refusal) -> Problem<'a> {
        Problem::Told(Fault::Refused(why))
    }
}

impl<'a> From<AllocError> for Problem<'a> {
    ghost from_gives = { λ _ p. p ≡ Memory };

    fn from(_error: AllocError) -> Problem<'a> {
        Problem::Memory
    }
}

impl<'a, T: Drop> From<AllocFailed<T>> for Problem<'a> {
    ghost from_gives = { λ _ p. p ≡ Memory };

    fn from(_failed: AllocFailed<T>) -> Problem<'a> {
        Problem::Memory
    }
}

// The number of a refusal, and its values.
#[derive(Drop)]
struct ByNumber(Refusal);

#[tactic(auto, unfolding(crate::specs::Texts::refusal_text))]
impl fmt::Display for ByNumber {
    ghost use Rattle.std.specs.Prelude.{Some};
    ghost use Rattle.words.specs.Texts.{told_refusal};

    ghost output = { λ why. Some (told_refusal why.0) };

    fn fmt<W: fmt::Write>(&self, f: &mut fmt::Formatter<W>) -> fmt::Result {
        let number = self.0.number();
        let values = self.0.values();
        match values.as_slice() {
            [] => write!(f, "refused {number}"),
            [a] => write!(f, "refused {number} {a}"),
            [a, b, ..] => write!(f, "refused {number} {a} {b}"),
        }
    }
}

// A refusal by its number, and any other fault as an error.
#[tactic(auto, unfolding(crate::specs::Texts::at_word, crate::specs::Texts::long_line, crate::specs::Texts::unknown_command, crate::specs::Texts::unknown_topic, crate::specs::Texts::word_count, crate::specs::Texts::unequal_lists, crate::specs::Texts::misspelled_word, crate::specs::Texts::misspelled_entry, crate::specs::Texts::many_entries, crate::specs::Texts::odd_digits, crate::specs::Texts::bad_digit, crate::specs::Texts::too_many_to_draw))]
impl fmt::Display for Fault<'_> {
    ghost use Rattle.std.specs.Prelude.{Some};
    ghost use Rattle.words.specs.Texts.{fault_text};

    ghost output = { λ fault. Some (fault_text fault) };

    fn fmt<W: fmt::Write>(&self, f: &mut fmt::Formatter<W>) -> fmt::Result {
        match self {
            Fault::LongLine => f.write_str("error: the line is longer than 4096 bytes"),
            Fault::UnknownCommand(word) => write!(
                f,
                "error: word {word} is no command; {}",
                WayOn(word.text)
            ),
            Fault::UnknownTopic(word) => write!(
                f,
                "error: word {word} is no topic of help; topics are the commands, the words of their usages (as LIST), words, refused, and the numbers from 1 to 16"
            ),
            Fault::WordCount(count) => write!(
                f,
                "error: wrong number of words behind the name: {} wanted, {}; usage: {}",
                Wanted(*count),
                Found(*count),
                count.usage
            ),
            Fault::UnequalLists => f.write_str(
                "error: set takes as many strides as extents: words 4 and 5",
            ),
            Fault::Misspelled(place, form) => match place {
                Place::Word(word) => write!(f, "error: {place}{}", Misfit(*form, word.text)),
                Place::Entry(_, entry) => write!(
                    f,
                    "error: {place}{}{}",
                    Misfit(*form, entry.text),
                    Commas(entry.text)
                ),
            },
            Fault::ManyEntries(word) => write!(f, "error: word {word} has more than 64 entries"),
            Fault::OddDigits(word) => write!(
                f,
                "error: word {word} has an odd number of hexadecimal digits; a byte is two"
            ),
            Fault::BadDigit(word) => write!(
                f,
                "error: word {word} is not hexadecimal; a byte is two digits 0 to 9 or a to f, as 0f"
            ),
            Fault::TooManyToDraw(count) => write!(
                f,
                "error: draw shows at most 200 positions; the layout has {count}"
            ),
            Fault::Refused(why) => write!(f, "{}", ByNumber(*why)),
        }
    }
}

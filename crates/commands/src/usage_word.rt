// The words that usages are written in: what `help` says about them.
ghost use Rattle.std.specs.Prelude.{◌≡◌};

use std::fmt;
use view::list::Entry;

/// A word as the usages of commands write it.
#[derive(Clone, Copy)]
pub enum UsageWord {
    Len,
    OutLen,
    Offset,
    Extents,
    Strides,
    List,
    Pairs,
    From,
    To,
    Axis,
    Readings,
    Bytes,
    Words,
    Room,
    Command,
    Topic,
}

/// Each word of a usage.
pub const USAGE_WORDS: [UsageWord; 16] = [
    UsageWord::Len,
    UsageWord::OutLen,
    UsageWord::Offset,
    UsageWord::Extents,
    UsageWord::Strides,
    UsageWord::List,
    UsageWord::Pairs,
    UsageWord::From,
    UsageWord::To,
    UsageWord::Axis,
    UsageWord::Readings,
    UsageWord::Bytes,
    UsageWord::Words,
    UsageWord::Room,
    UsageWord::Command,
    UsageWord::Topic,
];

// A word as usages write it, and what it is.
#[derive(Clone, Copy)]
struct Texts {
    name: &'static str,
    meaning: &'static str,
}

impl UsageWord {
    ghost use Rattle.commands.specs.Topics.{word_texts, word_named};

    // A new word has its texts here.
    #[tactic(auto, unfolding(crate::specs::Topics::word_texts))]
    fn texts(self) -> Texts
        ensures name { result.name.now ≡ (word_texts self).name }
        ensures meaning { result.meaning.now ≡ (word_texts self).meaning }
    {
        let (name, meaning) = match self {
            UsageWord::Len => (
                "LEN",
                "the length of the buffer, a number from 0 to 18446744073709551615, as 24",
            ),
            UsageWord::OutLen => (
                "OUTLEN",
                "how many places the output has, a number from 0 to 18446744073709551615, as 2",
            ),
            UsageWord::Offset => (
                "OFFSET",
                "the number of the cell where all indices are 0, from -9223372036854775808 to 9223372036854775807, as 0",
            ),
            UsageWord::Extents => (
                "EXTENTS",
                "an extent for each axis, numbers from 0 to 18446744073709551615 with commas between them, at most 64, as 4,6; - for none",
            ),
            UsageWord::Strides => (
                "STRIDES",
                "a stride for each axis, numbers from -9223372036854775808 to 9223372036854775807 with commas between them, at most 64, as 1,-4; - for none",
            ),
            UsageWord::List => (
                "LIST",
                "numbers from 0 to 18446744073709551615 with commas between them, at most 64, as 1,0; - for none",
            ),
            UsageWord::Pairs => (
                "PAIRS",
                "pairs a:b of axes with commas between them, at most 64, as 0:1,1:2; - for none",
            ),
            UsageWord::From => (
                "FROM",
                "readings to copy, numbers from -2147483648 to 2147483647 with commas between them, at most 64, as 7,-8; - for none",
            ),
            UsageWord::To => (
                "TO",
                "readings to copy into, numbers from -2147483648 to 2147483647 with commas between them, at most 64, as 0,0; - for none",
            ),
            UsageWord::Axis => (
                "AXIS",
                "the axis to take means along, counted from 0, a number from 0 to 18446744073709551615, as 1",
            ),
            UsageWord::Readings => (
                "READINGS",
                "readings to take means of, numbers from -2147483648 to 2147483647 with commas between them, at most 64, as 7,-8; - for none",
            ),
            UsageWord::Bytes => (
                "BYTES",
                "two hexadecimal digits for each byte and nothing between them, as 00ff; - for none",
            ),
            UsageWord::Words => (
                "WORDS",
                "how many words of scratch to lend, a number from 0 to 65536, as 1024; left out, as many as are needed",
            ),
            UsageWord::Room => (
                "ROOM",
                "how much output to lend, in bytes of a record or in readings of means, a number from 0 to 65536, as 64",
            ),
            UsageWord::Command => ("COMMAND", "the name of a command, as new"),
            UsageWord::Topic => (
                "TOPIC",
                "what help explains: a command, as new; a word of a usage, as LIST; words; refused; or a number from 1 to 16",
            ),
        };
        Texts { name, meaning }
    }

    /// The word that usages write so.
    pub fn named(name: &[u8]) -> Option<UsageWord>
        ensures { result ≡ word_named name.now }
    {
        USAGE_WORDS
            .iter()
            .copied()
            .find(|word| word.texts().name.as_bytes() == name)
    }
}

// A line of `help words`.
#[tactic(auto, unfolding(crate::specs::Topics::word_line))]
impl fmt::Display for UsageWord {
    ghost use Rattle.std.specs.Prelude.{Some};
    ghost use Rattle.commands.specs.Topics.{word_line};

    ghost output = { λ word. Some (word_line word) };

    fn fmt<W: fmt::Write>(&self, f: &mut fmt::Formatter<W>) -> fmt::Result {
        let Texts { name, meaning } = self.texts();
        write!(f, "{name}: {meaning}")
    }
}

impl Entry for UsageWord {
    ghost use Rattle.std.specs.Prelude.{refl};
    ghost use Rattle.commands.specs.Topics.{word_line};

    ghost text = { word_line };

    ghost prints = { λ _. refl };
}

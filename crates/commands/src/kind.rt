// Refusals, each whatever its values: what `help` says about them.
ghost use Rattle.std.specs.Prelude.{◌≡◌};

use std::fmt;
use view::list::Entry;

/// A refusal, whatever its values.
#[derive(Clone, Copy)]
pub enum Kind {
    TooManyAxes,
    LengthsDiffer,
    OutOfRange,
    WrongLength,
    BadAxis,
    BadExtent,
    BadIndex,
    TooManyPositions,
    ShortScratch,
    ShortOutput,
    NotARecord,
    ExtentsDiffer,
    ShortReadings,
    NotDistinct,
    EmptyAxis,
    LongAxis,
}

/// Each refusal, by its number.
pub const KINDS: [Kind; 16] = [
    Kind::TooManyAxes,
    Kind::LengthsDiffer,
    Kind::OutOfRange,
    Kind::WrongLength,
    Kind::BadAxis,
    Kind::BadExtent,
    Kind::BadIndex,
    Kind::TooManyPositions,
    Kind::ShortScratch,
    Kind::ShortOutput,
    Kind::NotARecord,
    Kind::ExtentsDiffer,
    Kind::ShortReadings,
    Kind::NotDistinct,
    Kind::EmptyAxis,
    Kind::LongAxis,
];

// A refusal's number, the names of its values, and what it says.
#[derive(Clone, Copy)]
struct Texts {
    number: &'static str,
    values: &'static str,
    meaning: &'static str,
}

impl Kind {
    ghost use Rattle.commands.specs.Topics.{kind_texts, kind_named};

    // A new refusal has its texts here.
    #[tactic(auto, unfolding(crate::specs::Topics::kind_texts))]
    fn texts(self) -> Texts
        ensures number { result.number.now ≡ (kind_texts self).number }
        ensures values { result.values.now ≡ (kind_texts self).values }
        ensures meaning { result.meaning.now ≡ (kind_texts self).meaning }
    {
        let (number, values, meaning) = match self {
            Kind::TooManyAxes => (
                "1",
                "",
                "more than 16 axes or entries; the layout and each list of axes have at most 16",
            ),
            Kind::LengthsDiffer => (
                "2",
                "",
                "the lists differ in length; give as many strides as extents, and to order an OUTLEN of as many places as strides",
            ),
            Kind::OutOfRange => (
                "3",
                "",
                "an offset would lie outside the buffer, or a number does not fit 64 bits; look at LEN, OFFSET and each stride x (extent - 1)",
            ),
            Kind::WrongLength => (
                "4",
                " A B",
                "a list and the axes of the layout differ in number: A and B; permute and offset have A entries for B axes, broadcast has B entries for A axes",
            ),
            Kind::BadAxis => (
                "5",
                " AXIS RANK",
                "axis AXIS is outside the rank RANK, or named twice; axes are numbered from 0",
            ),
            Kind::BadExtent => (
                "6",
                " AXIS",
                "the extent of axis AXIS is neither its target nor 1; only an axis of extent 1 is stretched",
            ),
            Kind::BadIndex => (
                "7",
                " AXIS",
                "the index of axis AXIS is not below its extent; indices are counted from 0",
            ),
            Kind::TooManyPositions => (
                "8",
                "",
                "more than 2^64 - 1 positions; look at the extents",
            ),
            Kind::ShortScratch => (
                "9",
                " WORDS",
                "WORDS words of scratch are needed; lend as many (a line lends at most 65536), or leave WORDS out",
            ),
            Kind::ShortOutput => (
                "10",
                " ROOM",
                "an output of ROOM is needed, in bytes of a record or in readings of means; give at least as many as ROOM",
            ),
            Kind::NotARecord => (
                "11",
                "",
                "the bytes are not a record; no whole one stands at their beginning, or its verdict is false",
            ),
            Kind::ExtentsDiffer => (
                "12",
                "",
                "the two layouts differ in extents; give the current layout and the held one the same extents, in the same order",
            ),
            Kind::ShortReadings => (
                "13",
                "",
                "a buffer is shorter than its layout needs; give each layout as many readings as its highest offset + 1",
            ),
            Kind::NotDistinct => (
                "14",
                "",
                "the verdict on the destination is not distinct; hold a layout that verdict answers with distinct",
            ),
            Kind::EmptyAxis => (
                "15",
                "",
                "the extent along the axis is 0; means are taken along an axis of extent 1 to 65536",
            ),
            Kind::LongAxis => (
                "16",
                "",
                "the extent along the axis is above 65536; means are taken along an axis of extent 1 to 65536",
            ),
        };
        Texts {
            number,
            values,
            meaning,
        }
    }

    /// The refusal with a number.
    pub fn named(number: &[u8]) -> Option<Kind>
        ensures { result ≡ kind_named number.now }
    {
        KINDS
            .iter()
            .copied()
            .find(|kind| kind.texts().number.as_bytes() == number)
    }
}

// A line of `help refused`.
#[tactic(auto, unfolding(crate::specs::Topics::kind_line))]
impl fmt::Display for Kind {
    ghost use Rattle.std.specs.Prelude.{Some};
    ghost use Rattle.commands.specs.Topics.{kind_line};

    ghost output = { λ kind. Some (kind_line kind) };

    fn fmt<W: fmt::Write>(&self, f: &mut fmt::Formatter<W>) -> fmt::Result {
        let Texts {
            number,
            values,
            meaning,
        } = self.texts();
        write!(f, "refused {number}{values}: {meaning}")
    }
}

impl Entry for Kind {
    ghost use Rattle.std.specs.Prelude.{refl};
    ghost use Rattle.commands.specs.Topics.{kind_line};

    ghost text = { kind_line };

    ghost prints = { λ _. refl };
}

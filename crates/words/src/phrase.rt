// Parts of the sentences of errors.
ghost use Rattle.std.specs.Prelude.{◌≡◌};
ghost use Rattle.words.specs.Texts.{without_minus, is_number, is_farewell};

use crate::fault::Form;
use spelling::number::are_digits;
use std::fmt;

// The most words behind a name that an error counts: no command takes more.
const COUNTED_MOST: usize = 4;

/// A line with another number of words behind a name than its command takes.
#[derive(Clone, Copy)]
pub struct Miscount {
    pub usage: &'static str,
    /// The fewest words that the command takes.
    pub least: usize,
    /// The most words that it takes.
    pub most: usize,
    pub given: usize,
}

// A text without the sign of a negative number.
fn without_minus(text: &[u8]) -> &[u8]
    ensures { result.now ≡ without_minus text.now }
{
    match text {
        [b'-', digits @ ..] => digits,
        [..] => text,
    }
}

// Whether a text is a number, however large.
#[tactic(auto, unfolding(crate::specs::Texts::is_number))]
fn is_number(text: &[u8]) -> bool
    ensures { result ≡ is_number text.now }
{
    let digits = without_minus(text);
    !digits.is_empty() && are_digits(digits)
}

/// What is wrong with a text that is not of a form.
#[derive(Clone, Copy)]
pub struct Misfit<'a>(pub Form, pub &'a [u8]);

#[tactic(auto, unfolding(crate::specs::Texts::misfit))]
impl fmt::Display for Misfit<'_> {
    ghost use Rattle.std.specs.Prelude.{Some};
    ghost use Rattle.words.specs.Texts.{is_number, misfit};

    ghost output = { λ wrong. Some (misfit wrong.0 (is_number wrong.1.now)) };

    fn fmt<W: fmt::Write>(&self, f: &mut fmt::Formatter<W>) -> fmt::Result {
        f.write_str(match (self.0, is_number(self.1)) {
            (Form::Unsigned, true) => " is outside the range from 0 to 18446744073709551615",
            (Form::Signed, true) => {
                " is outside the range from -9223372036854775808 to 9223372036854775807"
            }
            (Form::Lent, true) => " is outside the range from 0 to 65536",
            (Form::Reading, true) => " is outside the range from -2147483648 to 2147483647",
            (Form::Unsigned | Form::Lent, false) => " is no number: write digits, as 24",
            (Form::Signed | Form::Reading, false) => " is no number: write digits, as 24 or -24",
            (Form::Pair, _) => " is no pair of axes: write a:b, as 0:1",
        })
    }
}

/// A word about commas, behind an entry that is no number.
#[derive(Clone, Copy)]
pub struct Commas<'a>(pub &'a [u8]);

#[tactic(auto, unfolding(crate::specs::Texts::commas))]
impl fmt::Display for Commas<'_> {
    ghost use Rattle.std.specs.Prelude.{Some};
    ghost use Rattle.words.specs.Texts.{is_number, commas};

    ghost output = { λ entry. Some (commas (is_number entry.0.now)) };

    fn fmt<W: fmt::Write>(&self, f: &mut fmt::Formatter<W>) -> fmt::Result {
        if is_number(self.0) {
            return Ok(());
        }
        f.write_str(", and commas between the entries")
    }
}

// Whether a name is a word with which other programs end.
#[tactic(auto, unfolding(crate::specs::Texts::is_farewell))]
fn is_farewell(name: &[u8]) -> bool
    ensures { result ≡ is_farewell name.now }
{
    "exit".as_bytes() == name
        || "quit".as_bytes() == name
        || "end".as_bytes() == name
        || "bye".as_bytes() == name
}

/// Where to go on from a name of no command.
#[derive(Clone, Copy)]
pub struct WayOn<'a>(pub &'a [u8]);

#[tactic(auto, unfolding(crate::specs::Texts::way_on))]
impl fmt::Display for WayOn<'_> {
    ghost use Rattle.std.specs.Prelude.{Some};
    ghost use Rattle.words.specs.Texts.{is_farewell, way_on};

    ghost output = { λ name. Some (way_on (is_farewell name.0.now)) };

    fn fmt<W: fmt::Write>(&self, f: &mut fmt::Formatter<W>) -> fmt::Result {
        f.write_str(if is_farewell(self.0) {
            "to end, end the input (Ctrl-D at a terminal)"
        } else {
            "help lists the commands"
        })
    }
}

/// How many words a command takes.
#[derive(Clone, Copy)]
pub struct Wanted(pub Miscount);

impl fmt::Display for Wanted {
    ghost use Rattle.std.specs.Prelude.{Some};
    ghost use Rattle.words.specs.Texts.{wanted};

    ghost output = { λ count. Some (wanted count.0.least count.0.most) };

    fn fmt<W: fmt::Write>(&self, f: &mut fmt::Formatter<W>) -> fmt::Result {
        let Miscount { least, most, .. } = self.0;
        if least == most {
            write!(f, "{most}")
        } else {
            write!(f, "{least} or {most}")
        }
    }
}

/// How many words stand behind a name, and what to do if they are too many.
#[derive(Clone, Copy)]
pub struct Found(pub Miscount);

impl fmt::Display for Found {
    ghost use Rattle.std.specs.Prelude.{Some, ◌++◌, codes};
    ghost use Rattle.words.specs.Texts.{given, no_space};

    ghost output = { λ count. Some (given count.0.given ++ codes " given" ++ no_space count.0.most count.0.given) };

    fn fmt<W: fmt::Write>(&self, f: &mut fmt::Formatter<W>) -> fmt::Result {
        let Miscount { most, given, .. } = self.0;
        let no_space = if 0 < most && most < given {
            " (no space within a list)"
        } else {
            ""
        };
        if COUNTED_MOST < given {
            write!(f, "more than 4 given{no_space}")
        } else {
            write!(f, "{given} given{no_space}")
        }
    }
}

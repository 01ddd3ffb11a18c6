// What a word, or an entry of a list, can spell.
ghost use Rattle.std.specs.Prelude.{◌≡◌, ◌<◌, List, ℕ, Option, IfSome, length};
ghost use Rattle.words.specs.declared.fault.Form.{Form};
ghost use Rattle.words.specs.declared.fault.Form.TheVariants.{Unsigned, Signed, Pair, Lent as lent_form, Reading};
ghost use Rattle.words.specs.Spelled.{unsigned, signed, lent, reading, colon, pair};

use crate::fault::Form;
use spelling::number::{read_signed, read_unsigned};
use view::diagonal::AxisPair;

/// The most words, bytes or readings that a line can name to be lent to a call.
const LENT_MOST: usize = 65536;

/// A number of words, of bytes or of readings that a line lends to a call.
#[derive(Clone, Copy)]
pub struct Lent(pub usize);

/// A value that a text can spell, in one way.
pub trait Spelled: Drop {
    ghost spelled: { List ℕ → Option Self };

    // What the text should have been, for the fault.
    ghost form: { Form };

    fn form() -> Form
        ensures { result ≡ form };

    // The value that the text spells, if it is one.
    fn read(text: &[u8]) -> Option<Self>
        ensures { result ≡ spelled text.now };
}

impl Spelled for u64 {
    ghost spelled = { unsigned };

    ghost form = { Unsigned };

    fn form() -> Form {
        Form::Unsigned
    }

    fn read(text: &[u8]) -> Option<u64> {
        read_unsigned(text)
    }
}

impl Spelled for i64 {
    ghost spelled = { signed };

    ghost form = { Signed };

    fn form() -> Form {
        Form::Signed
    }

    fn read(text: &[u8]) -> Option<i64> {
        read_signed(text)
    }
}

// An axis, or a count of places.
impl Spelled for usize {
    ghost spelled = { unsigned };

    ghost form = { Unsigned };

    fn form() -> Form {
        Form::Unsigned
    }

    fn read(text: &[u8]) -> Option<usize> {
        Some(u64::read(text)? as usize)
    }
}

// The place of the first colon.
fn colon(text: &[u8]) -> Option<usize>
    ensures place { result ≡ colon text.now }
    ensures within { IfSome result (λ i. i < length text.now) }
{
    text.iter().position(|byte| *byte == b':')
}

// Two axes, with a colon between them.
impl Spelled for AxisPair {
    ghost spelled = { pair };

    ghost form = { Pair };

    fn form() -> Form {
        Form::Pair
    }

    fn read(text: &[u8]) -> Option<AxisPair> {
        let at = colon(text)?;
        let left = usize::read(&text[..at])?;
        let right = usize::read(&text[at + 1..])?;
        Some(AxisPair(left, right))
    }
}

impl Spelled for Lent {
    ghost spelled = { lent };

    ghost form = { lent_form };

    fn form() -> Form {
        Form::Lent
    }

    fn read(text: &[u8]) -> Option<Lent> {
        let count = usize::read(text)?;
        if count <= LENT_MOST {
            Some(Lent(count))
        } else {
            None
        }
    }
}

// A reading of a buffer.
impl Spelled for i32 {
    ghost spelled = { reading };

    ghost form = { Reading };

    fn form() -> Form {
        Form::Reading
    }

    fn read(text: &[u8]) -> Option<i32> {
        i32::try_from(i64::read(text)?).ok()
    }
}

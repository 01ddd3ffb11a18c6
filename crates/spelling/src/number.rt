// Numbers read from bytes: decimal, unsigned and signed.
ghost use Rattle.std.specs.Prelude.{◌≡◌};
ghost use Rattle.std.specs.Char.{is_ascii_digit};
ghost use Rattle.std.specs.List.{list_all};
ghost use Rattle.spelling.specs.Number.{unsigned_of, signed_of};

// The sign in front of a negative number.
const MINUS: u8 = b'-';

/// Whether each byte is a decimal digit.
pub fn are_digits(text: &[u8]) -> bool
    ensures { result ≡ list_all is_ascii_digit text.now }
{
    text.iter().all(|byte| byte.is_ascii_digit())
}

/// The number that the bytes spell, if they are digits, at least one, and a u64 holds it.
#[tactic(auto, using(crate::proofs::NumberLaws::spelled_on, crate::proofs::NumberLaws::spelled_end, crate::proofs::NumberLaws::unsigned_over), unfolding(crate::specs::Number::unsigned_of))]
pub fn read_unsigned(text: &[u8]) -> Option<u64>
    ensures { result ≡ unsigned_of text.now }
{
    if text.is_empty() || !are_digits(text) {
        return None;
    }
    let mut number: u64 = 0;
    for byte in text {
        number = number
            .checked_mul(10)?
            .checked_add(u64::from(*byte - b'0'))?;
    }
    Some(number)
}

/// The number that a text of digits spells, with `-` in front of a negative one, if an i64 holds it; `None` for any other text.
#[tactic(auto, unfolding(crate::specs::Number::signed_of))]
pub fn read_signed(text: &[u8]) -> Option<i64>
    ensures { result ≡ signed_of text.now }
{
    match text {
        [] => None,
        [MINUS, digits @ ..] => 0i64.checked_sub_unsigned(read_unsigned(digits)?),
        [_, ..] => i64::try_from(read_unsigned(text)?).ok(),
    }
}

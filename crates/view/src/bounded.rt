//! A product that stops at a limit.
ghost use Rattle.std.specs.Prelude.{◌≡◌, ◌*◌};
ghost use Rattle.view.specs.Bounded.{bounded_by};

/// The most that half a word holds: two such factors make a product that fits a word.
const HALF_WORD: u64 = u32::MAX as u64;

/// a * b, if that is at most the limit.
pub fn bounded_product(a: u64, b: u64, limit: u64) -> Option<u64>
    ensures { result ≡ bounded_by limit (a * b) }
{
    let product = if HALF_WORD < a || HALF_WORD < b {
        a.checked_mul(b)?
    } else {
        a * b
    };
    if limit < product { None } else { Some(product) }
}

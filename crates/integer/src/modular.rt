// Arithmetic modulo m, for any m below 2^64, in words of 64 bits.
ghost use Rattle.std.specs.Prelude.{◌≡◌, ◌+◌, ◌*◌, ◌%◌, ◌<◌};
ghost use Rattle.integer.specs.Congruence.{IsCongruent, IsGcdInverse};

// 2^32: two numbers below it have a product that fits a word.
const HALF_WORD: u64 = 0x1_0000_0000;

/// A greatest common divisor of two numbers, and an inverse of the first modulo the second, up to that divisor.
#[derive(Clone, Copy, Debug, PartialEq, Eq)]
pub struct GcdInverse {
    pub gcd: u64,
    pub inverse: u64,
}

/// x + y modulo m. The sum itself may pass 2^64, so m - y is compared first.
pub fn add_mod(x: u64, y: u64, m: u64) -> u64
    requires { (x < m) × (y < m) }
    ensures { (result < m) × (result ≡ (x + y) % m) }
{
    let c = m - y;
    if x >= c { x - c } else { x + y }
}

/// -x modulo m.
pub fn neg_mod(x: u64, m: u64) -> u64
    requires { x < m }
    ensures { (result < m) × IsCongruent m (result + x) 0 }
{
    if x == 0 { 0 } else { m - x }
}

// x * y modulo m, with one doubling for each bit of y.
fn by_doubling(x: u64, y: u64, m: u64) -> u64
    requires { (x < m) × (y < m) }
    ensures { result ≡ x * y % m }
{
    let mut sum: u64 = 0;
    let mut base = x;
    let mut left = y;
    while left > 0 {
        if left % 2 == 1 {
            sum = add_mod(sum, base, m);
        }
        base = add_mod(base, base, m);
        left /= 2;
    }
    sum
}

/// x * y modulo m. Below 2^32 the product itself fits a word; else the smaller factor is the one whose bits are doubled for.
pub fn mul_mod(x: u64, y: u64, m: u64) -> u64
    requires { (x < m) × (y < m) }
    ensures { result ≡ x * y % m }
{
    if m <= HALF_WORD {
        x * y % m
    } else if x < y {
        by_doubling(y, x, m)
    } else {
        by_doubling(x, y, m)
    }
}

/// The greatest common divisor of a and b, and an inverse of a modulo b.
// Euclid's remainders of b and a, each as a multiple of a modulo b: r0 is t0 times a if `positive`, else minus that, and
// r1 is t1 times a with the other sign. The magnitudes stay at most b, and the signs turn at every step.
pub fn gcd_and_inverse(a: u64, b: u64) -> GcdInverse
    requires { 0 < b }
    ensures { IsGcdInverse a b result.gcd result.inverse }
{
    let mut r0 = b;
    let mut r1 = a % b;
    let mut t0: u64 = 0;
    let mut t1: u64 = 1;
    let mut positive = false;
    while r1 > 0 {
        let q = r0 / r1;
        (r0, r1) = (r1, r0 % r1);
        (t0, t1) = (t1, t0 + q * t1);
        positive = !positive;
    }
    GcdInverse {
        gcd: r0,
        inverse: if positive { t0 % b } else { (b - t0) % b },
    }
}

//! Greatest common divisors, and exact division by a divisor that is known beforehand.

ghost use Rattle.std.specs.Prelude.{◌≡◌, ◌*◌, ◌%◌, ◌^◌, ◌*ℤ◌, ◌<◌, ◌≤◌, pos, unsigned_abs, IfSome};
ghost use Rattle.std.specs.Int.{w64, w128, trailing_zeros};
ghost use Rattle.frac_rows.specs.Divisors.{gcd};
ghost use Rattle.frac_rows.specs.Rows.{widest};

use crate::limits::WIDEST;
use crate::multipliers::product;

/// The greatest common divisor of two numbers.
///
/// What is left of them without their factors of 2 is odd, and the difference of two odd numbers is even: so the lesser
/// is taken from the greater, and halved as often as that goes, until nothing is left. No step is a division.
pub(crate) fn gcd_64(a: u64, b: u64) -> u64
    ensures { result ≡ gcd a b }
{
    if a == 0 {
        return b;
    }
    if b == 0 {
        return a;
    }
    let twos = a.trailing_zeros().min(b.trailing_zeros());
    odd_gcd_64(odd_part_64(a), b) << twos
}

// What is left of the number without its factors of 2.
fn odd_part_64(n: u64) -> u64
    requires { 1 ≤ n }
    ensures odd { result % 2 ≡ 1 }
    ensures part { result * 2 ^ trailing_zeros w64 n ≡ n }
{
    n >> n.trailing_zeros()
}

// The greatest common divisor of an odd number and another one.
fn odd_gcd_64(a: u64, b: u64) -> u64
    requires { a % 2 ≡ 1 }
    ensures { result ≡ gcd a b }
{
    let mut x = a;
    let mut y = b;
    while y > 0 {
        let odd = odd_part_64(y);
        y = x.abs_diff(odd);
        x = x.min(odd);
    }
    x
}

/// The greatest common divisor of two numbers, of which mostly the second one is small.
pub(crate) fn gcd_128(a: u128, b: u128) -> u128
    ensures { result ≡ gcd a b }
{
    if a == 0 {
        return b;
    }
    if b == 0 {
        return a;
    }
    if let Ok(small) = u64::try_from(b) {
        return u128::from(gcd_64(small, (a % b) as u64));
    }
    let twos = a.trailing_zeros().min(b.trailing_zeros());
    odd_gcd_128(odd_part_128(a), b) << twos
}

// What is left of the number without its factors of 2.
fn odd_part_128(n: u128) -> u128
    requires { 1 ≤ n }
    ensures odd { result % 2 ≡ 1 }
    ensures part { result * 2 ^ trailing_zeros w128 n ≡ n }
{
    n >> n.trailing_zeros()
}

// The greatest common divisor of an odd number and another one.
fn odd_gcd_128(a: u128, b: u128) -> u128
    requires { a % 2 ≡ 1 }
    ensures { result ≡ gcd a b }
{
    let mut x = a;
    let mut y = b;
    while y > 0 {
        if let (Ok(x), Ok(y)) = (u64::try_from(x), u64::try_from(y)) {
            return u128::from(odd_gcd_64(x, y));
        }
        let odd = odd_part_128(y);
        y = x.abs_diff(odd);
        x = x.min(odd);
    }
    x
}

/// A number to divide by, above 0. Its odd part has an inverse modulo 2^64, by which a quotient is guessed.
#[derive(Clone, Copy)]
pub(crate) struct Divisor {
    pub(crate) number: u64,
    shift: u32,
    inverse: u64,
    ghost low: { 1 ≤ number },
    ghost high: { number ≤ widest },
    ghost shifts: { shift < 64 },
}

impl Divisor {
    /// The divisor, or none where the number is 0 or too great.
    pub(crate) fn new(number: u64) -> Option<Divisor>
        ensures { IfSome result (λ by. by.number ≡ number) }
    {
        if number == 0 || number > WIDEST {
            return None;
        }
        let shift = number.trailing_zeros();
        let odd = number >> shift;
        let mut inverse = odd;
        for _ in 0..5 {
            inverse = inverse.wrapping_mul(2u64.wrapping_sub(odd.wrapping_mul(inverse)));
        }
        Some(Divisor {
            number,
            shift,
            inverse,
        })
    }

    /// A number that gives `z` times the divisor. Where there is one within the limit of a table, it is found.
    pub(crate) fn exact(&self, z: i128) -> Option<i64>
        ensures value { IfSome result (λ q. pos self.now.number *ℤ q ≡ z) }
        ensures size { IfSome result (λ q. unsigned_abs q ≤ widest) }
    {
        let low = (z >> self.shift).cast_unsigned() & u128::from(u64::MAX);
        let guess = (low as u64).wrapping_mul(self.inverse).cast_signed();
        if guess.unsigned_abs() > WIDEST || product(self.number as i64, guess) != z {
            return None;
        }
        Some(guess)
    }
}

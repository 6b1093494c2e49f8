//! Greatest common divisors and quotients.

ghost use Rattle.std.specs.Prelude.{◌≡◌, ◌≤◌, ◌^◌, unsigned_abs};
ghost use Rattle.frac_rows.specs.Divisors.{gcd, quotient};

/// The greatest common divisor of two numbers.
pub(crate) fn gcd_128(a: u128, b: u128) -> u128
    ensures { result ≡ gcd a b }
{
    let mut x = a;
    let mut y = b;
    while y > 0 {
        if let (Ok(x), Ok(y)) = (u64::try_from(x), u64::try_from(y)) {
            return u128::from(gcd_64(x, y));
        }
        let rest = x % y;
        x = y;
        y = rest;
    }
    x
}

// The greatest common divisor of two numbers that fit 64 bits.
fn gcd_64(a: u64, b: u64) -> u64
    ensures { result ≡ gcd a b }
{
    let mut x = a;
    let mut y = b;
    while y > 0 {
        let rest = x % y;
        x = y;
        y = rest;
    }
    x
}

/// The number divided by a divisor of it, which may be 0.
pub(crate) fn quotient(z: i128, divisor: u128) -> i128
    requires z_limit { unsigned_abs z ≤ 2 ^ 125 }
    requires divisor_limit { divisor ≤ 2 ^ 125 }
    ensures { result ≡ quotient z divisor }
{
    if divisor == 0 {
        return 0;
    }
    if divisor == 1 {
        return z;
    }
    z / divisor as i128
}

//! Comparisons of lengths as signed numbers.
//!
//! Vector instructions compare signed numbers of 64 bits in one step, and unsigned ones in three.

ghost use Rattle.std.specs.Prelude.{◌≡◌, ◌-◌, ◌^◌, ◌<◌, max, min};

/// The lesser of two lengths.
pub(crate) fn lesser(a: u64, b: u64) -> u64
    requires first { a < 2 ^ 63 }
    requires second { b < 2 ^ 63 }
    ensures { result ≡ min a b }
{
    if (a as i64) < (b as i64) { a } else { b }
}

/// The greater of two lengths.
pub(crate) fn greater(a: u64, b: u64) -> u64
    requires first { a < 2 ^ 63 }
    requires second { b < 2 ^ 63 }
    ensures { result ≡ max a b }
{
    if (a as i64) < (b as i64) { b } else { a }
}

/// What the first length is above the second, or 0.
pub(crate) fn excess(a: u64, b: u64) -> u64
    requires first { a < 2 ^ 63 }
    requires second { b < 2 ^ 63 }
    ensures { result ≡ a - b }
{
    a - lesser(a, b)
}

//! Bounds and weights of leaves.

ghost use Rattle.std.specs.Prelude.{◌≡◌};
ghost use Rattle.leaf_bound.specs.Weighing.{most_bound, IsWithin};
ghost use Rattle.search_spec.specs.States.{lesser, rounded_up};

use hub_model::unsigned;

/// The greatest sum of the weights of a leaf, in 10^-6: the denominator of every leaf that a search makes.
pub const WHOLE_WEIGHT: u128 = 1_000_000;

/// The lesser of the two numbers, or the first where there is no other.
pub fn lesser(number: u128, other: Option<u128>) -> u128
    ensures { result ≡ lesser number other }
{
    match other {
        None => number,
        Some(other) => number.min(other),
    }
}

/// The bound, given in 10^-12 times the whole weight, in 10^-12 and rounded up; 0 where it is negative.
pub fn rounded_up(bound: i128) -> u128
    requires { IsWithin most_bound bound }
    ensures { result ≡ rounded_up bound }
{
    if bound < 0 {
        return 0;
    }
    unsigned(bound).div_ceil(WHOLE_WEIGHT)
}

//! Stretches of a list of lengths, computed number by number.

ghost use Rattle.std.specs.Prelude.{◌+◌, ◌^◌, ◌<◌, ◌≤◌, length, slice_index, min, All};
ghost use Rattle.unit_duals.specs.Limits.{most_leg, most_length};
ghost use Rattle.unit_duals.specs.Raised.{IsStretchSet};

use crate::lanes::lesser;

/// Sets the numbers from `at` on to the base and a leg each.
pub(crate) fn set_stretch(items: &mut [u64], at: usize, base: u64, legs: &[u64])
    requires room { at + length legs.now ≤ length items.old }
    requires base { base ≤ most_leg }
    requires legs { All (λ d. d ≤ most_length) legs.now }
    ensures { IsStretchSet at (length legs.now) (λ j. base + slice_index legs.now j) items.old items.new }
{
    for j in 0..legs.len() {
        items[at + j] = base + legs[j];
    }
}

/// Lowers the numbers from `at` on to the base and a leg each, where that is less.
pub(crate) fn lower_stretch(items: &mut [u64], at: usize, base: u64, legs: &[u64])
    requires room { at + length legs.now ≤ length items.old }
    requires limit { All (λ d. d < 2 ^ 63) items.old }
    requires base { base ≤ most_leg }
    requires legs { All (λ d. d ≤ most_length) legs.now }
    ensures { IsStretchSet at (length legs.now) (λ j. min (slice_index items.old (at + j)) (base + slice_index legs.now j)) items.old items.new }
{
    for j in 0..legs.len() {
        items[at + j] = lesser(items[at + j], base + legs[j]);
    }
}

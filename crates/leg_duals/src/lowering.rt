//! Rows of numbers, lowered to lengths where these are near enough.
//!
//! Lengths are compared as signed numbers, which vector instructions do in one step. Nothing branches, so several
//! numbers are processed at a time.

ghost use Rattle.std.specs.Prelude.{◌≡◌, ◌+◌, ◌*◌, ◌^◌, ◌<◌, ◌≤◌, length, slice_index, min, All};
ghost use Rattle.hub_spec.specs.Limits.{most_distance};
ghost use Rattle.unit_duals.specs.Limits.{most_leg};
ghost use Rattle.leg_duals.specs.Ways.{no_way};
ghost use Rattle.leg_duals.specs.Lowered.{IsLowered};

/// What stands for a length where no way is near enough: it is above all lengths, and a sum with some fits 63 bits.
pub(crate) const NO_WAY: u64 = 1 << 62;

/// Lowers each number to the base and its leg, where its rest is no more than what is left.
pub(crate) fn lower(items: &mut [u64], base: u64, legs: &[u64], rests: &[u64], left: u64)
    requires legs_long { length legs.now ≡ length items.old }
    requires rests_long { length rests.now ≡ length items.old }
    requires base { base ≤ 2 * most_leg }
    requires legs { All (λ d. d ≤ most_leg) legs.now }
    requires rests { All (λ d. d ≤ most_distance) rests.now }
    requires left { left < 2 ^ 63 }
    requires limit { All (λ d. d ≤ no_way) items.old }
    ensures lowered { IsLowered (length items.old)
        (λ j v. (slice_index rests.now j ≤ left) × (v ≡ base + slice_index legs.now j)) (slice_index items.old) (slice_index items.new) }
    ensures limit { All (λ d. d ≤ no_way) items.new }
{
    for j in 0..items.len() {
        items[j] = lowered(items[j], base + legs[j], rests[j], left);
    }
}

/// The same with what stands beside each leg.
pub(crate) fn lower_beside(
    items: &mut [u64],
    base: u64,
    legs: &[u64],
    beside: &[u64],
    rests: &[u64],
    left: u64,
)
    requires legs_long { length legs.now ≡ length items.old }
    requires beside_long { length beside.now ≡ length items.old }
    requires rests_long { length rests.now ≡ length items.old }
    requires base { base ≤ 2 * most_leg }
    requires legs { All (λ d. d ≤ most_leg) legs.now }
    requires beside { All (λ d. d ≤ no_way) beside.now }
    requires rests { All (λ d. d ≤ most_distance) rests.now }
    requires left { left < 2 ^ 63 }
    requires limit { All (λ d. d ≤ no_way) items.old }
    ensures lowered { IsLowered (length items.old)
        (λ j v. (slice_index rests.now j ≤ left) × (v ≡ base + slice_index legs.now j + slice_index beside.now j))
        (slice_index items.old) (slice_index items.new) }
    ensures limit { All (λ d. d ≤ no_way) items.new }
{
    for j in 0..items.len() {
        items[j] = lowered(items[j], base + legs[j] + beside[j], rests[j], left);
    }
}

/// The lesser of the number and the length, where the rest is no more than what is left.
fn lowered(item: u64, length: u64, rest: u64, left: u64) -> u64
    requires item { item ≤ no_way }
    requires length { length < 2 ^ 63 }
    requires rest { rest < 2 ^ 63 }
    requires left { left < 2 ^ 63 }
    ensures near { rest ≤ left → result ≡ min item length }
    ensures far { left < rest → result ≡ item }
    ensures limit { result ≤ no_way }
{
    let near = if (left as i64) < (rest as i64) {
        NO_WAY
    } else {
        length
    };
    if (near as i64) < (item as i64) {
        near
    } else {
        item
    }
}

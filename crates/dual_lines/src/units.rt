//! The test by unit of flow: a price against lengths and values, and where needed in costs.
//!
//! The price is divided by the flow and rounded up, each value is divided and rounded down. So what is covered here is
//! covered in the listed costs, and a hub that is not is left to the exact test. The flow is multiplied by the part.
//! Lengths, prices and values per unit of flow are in 10^-6.

ghost use Rattle.std.specs.Prelude.{◌≡◌, ℕ, ◌+◌, ◌*◌, ◌^◌, ◌<◌, ◌≤◌, ◌↔◌, length, slice_index, IsTrue, IfSome, All};
ghost use Rattle.hub_spec.specs.Limits.{most_part};
ghost use Rattle.hub_spec.specs.Ranges.{IsAmount};
ghost use Rattle.unit_duals.specs.Limits.{most_leg};
ghost use Rattle.hub_model.specs.CandidateLengths.{candidate_at};
ghost use Rattle.dual_lines.specs.Covers.{IsCoveredFirst, IsCovered};
ghost use Rattle.dual_lines.specs.Units.{most_unit, AreUnits, AreEnds, IsNearestLast, IsCoveredInUnits, weighted_flow};

use crate::amounts::{PricedCommodity, is_covered_by_amounts, is_covered_first};
use leg_duals::CandidateLegs;

/// A price by unit of flow, with what covers it: by place a value and the end of the last hub there, a leg of delivery
/// and the value together; and what the ends are at least.
#[derive(Clone, Copy)]
struct UnitPrice<'a, 'b> {
    price: u64,
    units: &'a [u64],
    ends: &'b [u64],
    least_end: u64,
}

/// What a price or a value by unit of flow is cut to. No route is as long.
const MOST_UNIT: u64 = 100_000_000_000_000_000;

/// The most candidates that an instance has.
const MOST_PLACES: usize = 200;

/// The bit that tells that a sum is no less than a bound: 2^62, more than any sum.
const REACHED: u64 = 4_611_686_018_427_387_904;

/// Tells whether the price is covered with each candidate as the first hub. `amounts` has a value for each node, `units`
/// one by unit of flow for each place, and `carried` is the flow times the part.
pub(crate) fn is_covered(
    legs: &CandidateLegs,
    line: PricedCommodity,
    carried: u64,
    amounts: &[u128],
    units: &[u64],
) -> bool
    requires from { line.from < legs.now.size }
    requires to { line.to < legs.now.size }
    requires part { line.part ≤ most_part }
    requires price { IsAmount line.price }
    requires carried { carried ≡ weighted_flow legs.now line.part (line.from, line.to) }
    requires long { length amounts.now ≡ legs.now.size }
    requires short { All IsAmount amounts.now }
    requires units { AreUnits legs.now carried (slice_index amounts.now) units.now }
    ensures { IsTrue result ↔ IsCovered legs.now line.part (line.from, line.to) line.price amounts.now }
{
    match unit_price(line.price, carried) {
        Some(price) => is_covered_by_units(legs, line, price, amounts, units),
        None => is_covered_by_amounts(legs.instance(), line, amounts),
    }
}

/// The price by unit of flow, rounded up; none where it is above what prices are cut to, or nothing is
/// carried.
fn unit_price(price: u128, carried: u64) -> Option<u64>
    requires price { IsAmount price }
    ensures { IfSome result (λ a. (price ≤ carried * a) × (a ≤ most_unit)) }
{
    if price == 0 {
        return Some(0);
    }
    if carried == 0 {
        return None;
    }
    let carried = carried as u128;
    let rounded = (price + (carried - 1)) / carried;
    if rounded > MOST_UNIT as u128 {
        return None;
    }
    Some(rounded as u64)
}

/// The value by unit of flow, rounded down, and cut. The inverse is that of the flow by `inverse_of`: where it is another
/// number, the value by unit of flow may be told as less.
pub(crate) fn unit_value(amount: u128, carried: u64, inverse: u64) -> u64
    ensures all { carried * result ≤ amount }
    ensures one { result ≤ amount }
    ensures limit { result ≤ most_unit }
{
    if amount > u64::MAX as u128 {
        return divided(amount, carried);
    }
    short_unit_value(amount as u64, carried.max(1), inverse)
}

/// What amounts are multiplied by, in place of a division by the flow: 2^64 by unit of flow.
pub(crate) fn inverse_of(carried: u64) -> u64 {
    u64::MAX / carried.max(1)
}

/// The value by unit of flow, rounded down, and cut, by a division.
fn divided(amount: u128, carried: u64) -> u64
    ensures all { carried * result ≤ amount }
    ensures one { result ≤ amount }
    ensures limit { result ≤ most_unit }
{
    let carried = carried.max(1) as u128;
    (amount / carried).min(MOST_UNIT as u128) as u64
}

/// The quotient by multiplication. It is the product with the inverse or 1 more.
fn short_unit_value(amount: u64, divisor: u64, inverse: u64) -> u64
    requires some { 1 ≤ divisor }
    ensures all { divisor * result ≤ amount }
    ensures limit { result ≤ most_unit }
{
    let low = upper_half(amount, inverse).min(MOST_UNIT - 1);
    if is_within(low + 1, divisor, amount) {
        low + 1
    } else if is_within(low, divisor, amount) {
        low
    } else {
        0
    }
}

/// The product of two numbers by 2^64, rounded down.
fn upper_half(a: u64, b: u64) -> u64 {
    ((a as u128).wrapping_mul(b as u128) >> 64) as u64
}

/// Tells whether so many times the divisor are no more than the amount.
fn is_within(times: u64, divisor: u64, amount: u64) -> bool
    ensures { IsTrue result → divisor * times ≤ amount }
{
    match divisor.checked_mul(times) {
        Some(product) => product <= amount,
        None => false,
    }
}

/// Tells whether the price is covered with each candidate as the first hub, by unit of flow where that suffices.
fn is_covered_by_units(
    legs: &CandidateLegs,
    line: PricedCommodity,
    price: u64,
    amounts: &[u128],
    units: &[u64],
) -> bool
    requires from { line.from < legs.now.size }
    requires to { line.to < legs.now.size }
    requires part { line.part ≤ most_part }
    requires price { line.price ≤ weighted_flow legs.now line.part (line.from, line.to) * price }
    requires limit { price ≤ most_unit }
    requires long { length amounts.now ≡ legs.now.size }
    requires short { All IsAmount amounts.now }
    requires units { AreUnits legs.now (weighted_flow legs.now line.part (line.from, line.to))
        (slice_index amounts.now) units.now }
    ensures { IsTrue result ↔ IsCovered legs.now line.part (line.from, line.to) line.price amounts.now }
{
    let places = legs.places();
    let mut ends = [0; MOST_PLACES];
    let least_end = set_ends(legs, line.to, units, &mut ends);
    let tried = UnitPrice {
        price,
        units,
        ends: &ends,
        least_end,
    };
    for x in 0..places {
        if !is_place_covered(legs, line, &tried, amounts, x) {
            return false;
        }
    }
    true
}

/// Tells whether the price is covered with the candidate at the place as the first hub.
fn is_place_covered(
    legs: &CandidateLegs,
    line: PricedCommodity,
    tried: &UnitPrice<'_, '_>,
    amounts: &[u128],
    x: usize,
) -> bool
    requires from { line.from < legs.now.size }
    requires to { line.to < legs.now.size }
    requires part { line.part ≤ most_part }
    requires price { line.price ≤ weighted_flow legs.now line.part (line.from, line.to) * tried.now.price }
    requires limit { tried.now.price ≤ most_unit }
    requires last { IsNearestLast legs.now line.to tried.now.units.now tried.now.least_end }
    requires ends { AreEnds legs.now line.to tried.now.units.now tried.now.ends.now }
    requires long { length amounts.now ≡ legs.now.size }
    requires short { All IsAmount amounts.now }
    requires units { AreUnits legs.now (weighted_flow legs.now line.part (line.from, line.to))
        (slice_index amounts.now) tried.now.units.now }
    requires place { x < length legs.now.candidates }
    ensures { IsTrue result
        ↔ IsCoveredFirst legs.now line.part (line.from, line.to) line.price amounts.now (candidate_at legs.now x) }
{
    if is_covered_in_units(legs, line.from, line.to, tried, x) {
        return true;
    }
    let instance = legs.instance();
    is_covered_first(instance, line, amounts, instance.candidates()[x])
}

/// Tells, by unit of flow, that the price is covered with the candidate at the place as the first hub. It may be, too,
/// where this says no. Where collection and the nearest last end cover the price, no last hub is visited.
fn is_covered_in_units(
    legs: &CandidateLegs,
    i: u32,
    j: u32,
    tried: &UnitPrice<'_, '_>,
    x: usize,
) -> bool
    requires from { i < legs.now.size }
    requires to { j < legs.now.size }
    requires limit { tried.now.price ≤ most_unit }
    requires last { IsNearestLast legs.now j tried.now.units.now tried.now.least_end }
    requires ends { AreEnds legs.now j tried.now.units.now tried.now.ends.now }
    requires long { length tried.now.units.now ≡ length legs.now.candidates }
    requires short { All (λ v. v ≤ most_unit) tried.now.units.now }
    requires place { x < length legs.now.candidates }
    ensures { IsTrue result → IsCoveredInUnits legs.now (i, j) tried.now.price tried.now.units.now x }
{
    let price = tried.price;
    let least_end = tried.least_end;
    let first = legs.collection_legs(i)[x] + tried.units[x];
    if first + legs.delivery_legs(j)[x] < price {
        return false;
    }
    first + least_end >= price || are_beyond(price - first, legs.trunk_legs(x), tried.ends)
}

/// Sets the ends of the last hubs, each a leg of delivery and its value together, and gives the least.
fn set_ends(legs: &CandidateLegs, j: u32, units: &[u64], ends: &mut [u64]) -> u64
    requires to { j < legs.now.size }
    requires long { length units.now ≡ length legs.now.candidates }
    requires short { All (λ v. v ≤ most_unit) units.now }
    requires room { length legs.now.candidates ≤ length ends.old }
    ensures ends { AreEnds legs.now j units.now ends.new }
    ensures least { IsNearestLast legs.now j units.now result }
{
    let delivery = legs.delivery_legs(j);
    let mut least = MOST_UNIT;
    for y in 0..delivery.len() {
        let end = delivery[y] + units[y];
        ends[y] = end;
        least = least.min(end);
    }
    least
}

/// Tells whether a leg of trunk and the end of its place are together never less than the bound. Each sum is raised so
/// that it has the bit `REACHED` just where it is no less, and what all have in common is kept. Nothing ends the loop
/// early, so that several places are taken at a time.
fn are_beyond(bound: u64, trunk: &[u64], ends: &[u64]) -> bool
    requires bound { bound ≤ most_unit }
    requires trunk { All (λ d. d ≤ most_leg) trunk.now }
    requires ends { (y : ℕ) → y < length trunk.now → slice_index ends.now y ≤ 2 * most_unit }
    requires room { length trunk.now ≤ length ends.now }
    ensures { IsTrue result
        → (y : ℕ) → y < length trunk.now → bound ≤ slice_index trunk.now y + slice_index ends.now y }
{
    let rise = REACHED - bound;
    let mut common = u64::MAX;
    for y in 0..trunk.len() {
        common &= trunk[y] + ends[y] + rise;
    }
    common >= REACHED
}

//! The values of all positions, one position after another.
//!
//! Values are row by row, one row for each position. The value of a position is the price less the least length through
//! it, or 0 where that is negative.

ghost use Rattle.std.specs.Prelude.{◌≡◌, ℕ, ◌+◌, ◌-◌, ◌*◌, ◌<◌, ◌≤◌, length, slice_index, All};
ghost use Rattle.unit_duals.specs.Cells.{cell};
ghost use Rattle.unit_duals.specs.Raised.{IsRowSet};
ghost use Rattle.leg_duals.specs.Ways.{IsWay, IsWayBeside, no_way};
ghost use Rattle.leg_duals.specs.Lowered.{IsLowered, AreLowered, AreReached, IsSpared};
ghost use Rattle.leg_duals.specs.Duals.{IsPlaceWay, ArePrices, AreValues};

use crate::Ways;
use crate::reaches::Reaches;
use unit_duals::row;

/// Gives each place, in its turn, its values. `least` is where the least lengths by a place are worked out.
pub(crate) fn set_values(
    ways: &Ways,
    reaches: &Reaches,
    prices: &[u64],
    least: &mut [u64],
    values: &mut [u64],
)
    requires reached { AreReached ways.now reaches.now }
    requires prices_long { length prices.now ≡ ways.now.size }
    requires prices { ArePrices ways.now prices.now }
    requires limit { All (λ d. d ≤ no_way) prices.now }
    requires least_long { length least.old ≡ ways.now.size }
    requires values_long { length values.old ≡ length ways.now.order * ways.now.size }
    requires values_limit { All (λ d. d ≤ no_way) values.old }
    ensures { let w = ways.now in (t : ℕ) → t < length w.order → AreValues w prices.now (cell w.size values.new) t }
{
    for t in 0..ways.count() {
        least.copy_from_slice(prices);
        lower_by_place(ways, reaches, prices, values, least, t);
        set_row(prices, least, values, t);
    }
}

/// Lowers the prices to the lengths by the place.
fn lower_by_place(
    ways: &Ways,
    reaches: &Reaches,
    prices: &[u64],
    values: &[u64],
    least: &mut [u64],
    t: usize,
)
    requires reached { AreReached ways.now reaches.now }
    requires place { t < length ways.now.order }
    requires prices { ArePrices ways.now prices.now }
    requires least { least.old ≡ prices.now }
    requires long { length prices.now ≡ ways.now.size }
    requires limit { All (λ d. d ≤ no_way) prices.now }
    requires values_long { length values.now ≡ length ways.now.order * ways.now.size }
    requires values_limit { All (λ d. d ≤ no_way) values.now }
    requires before { let w = ways.now in (e : ℕ) → e < t → AreValues w prices.now (cell w.size values.now) e }
    ensures lowered { let w = ways.now in
        IsLowered w.size (IsPlaceWay w (cell w.size values.now) t) (slice_index prices.now) (slice_index least.new) }
    ensures limit { All (λ d. d ≤ no_way) least.new }
{
    ways.lower(t, t, least);
    lower_to_hubs(ways, reaches, least, t);
    lower_from_hubs(ways, reaches, least, t);
    lower_to_earlier(ways, reaches, values, least, t);
    lower_from_earlier(ways, reaches, values, least, t);
}

/// Lowers the numbers to the lengths by the place first and a hub last, but for those that are spared.
fn lower_to_hubs(ways: &Ways, reaches: &Reaches, least: &mut [u64], t: usize)
    requires reached { AreReached ways.now reaches.now }
    requires place { t < length ways.now.order }
    requires long { length least.old ≡ ways.now.size }
    requires limit { All (λ d. d ≤ no_way) least.old }
    ensures lowered { let w = ways.now in
        AreLowered w.size (length w.hubs) (λ y. IsSpared w reaches.now t (length w.order + y))
        (λ y. IsWay w t (length w.order + y)) (slice_index least.old) (slice_index least.new) }
    ensures limit { All (λ d. d ≤ no_way) least.new }
{
    for y in 0..ways.hubs() {
        reaches.lower(ways, t, ways.count() + y, least);
    }
}

/// Lowers the numbers to the lengths by a hub first and the place last, but for those that are spared.
fn lower_from_hubs(ways: &Ways, reaches: &Reaches, least: &mut [u64], t: usize)
    requires reached { AreReached ways.now reaches.now }
    requires place { t < length ways.now.order }
    requires long { length least.old ≡ ways.now.size }
    requires limit { All (λ d. d ≤ no_way) least.old }
    ensures lowered { let w = ways.now in
        AreLowered w.size (length w.hubs) (λ x. IsSpared w reaches.now (length w.order + x) t)
        (λ x. IsWay w (length w.order + x) t) (slice_index least.old) (slice_index least.new) }
    ensures limit { All (λ d. d ≤ no_way) least.new }
{
    for x in 0..ways.hubs() {
        reaches.lower(ways, ways.count() + x, t, least);
    }
}

/// Lowers the numbers to the lengths by the place first and an earlier one last, but for those that are spared.
fn lower_to_earlier(ways: &Ways, reaches: &Reaches, values: &[u64], least: &mut [u64], t: usize)
    requires reached { AreReached ways.now reaches.now }
    requires place { t < length ways.now.order }
    requires values_long { length values.now ≡ length ways.now.order * ways.now.size }
    requires values_limit { All (λ d. d ≤ no_way) values.now }
    requires long { length least.old ≡ ways.now.size }
    requires limit { All (λ d. d ≤ no_way) least.old }
    ensures lowered { let w = ways.now in
        AreLowered w.size t (IsSpared w reaches.now t)
        (λ e. IsWayBeside w (cell w.size values.now e) t e) (slice_index least.old) (slice_index least.new) }
    ensures limit { All (λ d. d ≤ no_way) least.new }
{
    for e in 0..t {
        let beside = row(values, e, least.len());
        reaches.lower_beside(ways, t, e, beside, least);
    }
}

/// Lowers the numbers to the lengths by an earlier place first and the place last, but for those that are spared.
fn lower_from_earlier(ways: &Ways, reaches: &Reaches, values: &[u64], least: &mut [u64], t: usize)
    requires reached { AreReached ways.now reaches.now }
    requires place { t < length ways.now.order }
    requires values_long { length values.now ≡ length ways.now.order * ways.now.size }
    requires values_limit { All (λ d. d ≤ no_way) values.now }
    requires long { length least.old ≡ ways.now.size }
    requires limit { All (λ d. d ≤ no_way) least.old }
    ensures lowered { let w = ways.now in
        AreLowered w.size t (λ e. IsSpared w reaches.now e t)
        (λ e. IsWayBeside w (cell w.size values.now e) e t) (slice_index least.old) (slice_index least.new) }
    ensures limit { All (λ d. d ≤ no_way) least.new }
{
    for e in 0..t {
        let beside = row(values, e, least.len());
        reaches.lower_beside(ways, e, t, beside, least);
    }
}

/// Sets the place's row of values to what the prices are above the least lengths.
fn set_row(prices: &[u64], least: &[u64], values: &mut [u64], t: usize)
    requires row { t * length prices.now + length prices.now ≤ length values.old }
    requires long { length least.now ≡ length prices.now }
    requires below { (j : ℕ) → j < length prices.now → slice_index least.now j ≤ slice_index prices.now j }
    requires limit { All (λ d. d ≤ no_way) prices.now }
    requires values_limit { All (λ d. d ≤ no_way) values.old }
    ensures row { IsRowSet (length prices.now) t (length prices.now) (λ j. slice_index prices.now j - slice_index least.now j) values.old values.new }
    ensures limit { All (λ d. d ≤ no_way) values.new }
{
    let size = prices.len();
    for j in 0..size {
        values[t * size + j] = prices[j] - least[j];
    }
}

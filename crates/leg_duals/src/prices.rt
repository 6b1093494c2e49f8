//! The prices: the least lengths through hubs.

ghost use Rattle.std.specs.Prelude.{◌≡◌, ℕ, ◌+◌, ◌<◌, ◌≤◌, length, slice_index, All};
ghost use Rattle.leg_duals.specs.Ways.{IsHub, IsWay, stop_count, no_way};
ghost use Rattle.leg_duals.specs.Lowered.{AnyOf, IsLowered, AreReached};
ghost use Rattle.leg_duals.specs.Duals.{ArePrices};

use crate::Ways;
use crate::lowering::NO_WAY;
use crate::reaches::Reaches;

/// Sets the price of each destination: the least length by hubs that is not too far, if there is one.
pub(crate) fn set_prices(ways: &Ways, reaches: &Reaches, prices: &mut [u64])
    requires reached { AreReached ways.now reaches.now }
    requires long { length prices.old ≡ ways.now.size }
    ensures prices { ArePrices ways.now prices.new }
    ensures limit { All (λ d. d ≤ no_way) prices.new }
{
    prices.fill(NO_WAY);
    for y in 0..ways.hubs() {
        lower_to_hub(ways, reaches, ways.count() + y, prices);
    }
}

/// Lowers the prices to the lengths by any hub first and the hub `m` last.
fn lower_to_hub(ways: &Ways, reaches: &Reaches, m: usize, prices: &mut [u64])
    requires reached { AreReached ways.now reaches.now }
    requires last { IsHub ways.now m }
    requires long { length prices.old ≡ ways.now.size }
    requires limit { All (λ d. d ≤ no_way) prices.old }
    ensures lowered { let w = ways.now in
        IsLowered w.size (AnyOf (length w.hubs) (λ x. IsWay w (length w.order + x) m)) (slice_index prices.old) (slice_index prices.new) }
    ensures limit { All (λ d. d ≤ no_way) prices.new }
{
    for x in 0..ways.hubs() {
        reaches.lower(ways, ways.count() + x, m, prices);
    }
}

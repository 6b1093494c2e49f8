//! The lengths of one origin: to the stops through a hub, and to the destinations through hubs.

ghost use Rattle.std.specs.Prelude.{◌≡◌, ℕ, ◌<◌, ◌≤◌, length, slice_index};
ghost use Rattle.unit_duals.specs.Lengths.{AreFirstLegs, stops};
ghost use Rattle.unit_duals.specs.Values.{reach_leg, price_by, ArePricesBy};

use crate::Tables;
use crate::lowering::lower_by_hubs;
use crate::stretches::set_stretch;

/// Sets the least length from the origin to each place, straight or by a hub.
pub(crate) fn set_reach(tables: &Tables, first: &[u64], reach: &mut [u64])
    requires first { AreFirstLegs tables.now.legs first.now }
    requires long { length reach.old ≡ stops tables.now.legs }
    ensures legs { AreFirstLegs tables.now.legs reach.new }
    ensures each { let l = tables.now.legs in (k : ℕ) → k < l.count → slice_index reach.new k ≡ reach_leg l first.now k }
{
    reach.copy_from_slice(first);
    if tables.count() > 0 {
        lower_by_hubs(reach, first, tables.trunk(), tables.count(), tables.hubs());
    }
}

/// Sets the least length from the origin to each destination, by one hub or by two.
pub(crate) fn set_prices(tables: &Tables, first: &[u64], prices: &mut [u64])
    requires some_hub { 1 ≤ tables.now.legs.hubs }
    requires first { AreFirstLegs tables.now.legs first.now }
    requires long { length prices.old ≡ tables.now.legs.size }
    ensures { ArePricesBy tables.now.legs first.now prices.new }
{
    let count = tables.count();
    set_stretch(prices, 0, first[count], tables.back_row(count));
    lower_by_hubs(prices, first, tables.back(), count, tables.hubs());
}

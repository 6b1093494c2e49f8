//! The duals of one origin.

ghost use Rattle.std.specs.Prelude.{◌≡◌, ◌+◌, ◌*◌, ◌<◌, ◌≤◌, [], length, All, IfOk, vec_capacity};
ghost use Rattle.unit_duals.specs.Limits.{most_room};
ghost use Rattle.leg_duals.specs.UnitDuals.{AreUnitDuals};
ghost use Rattle.leg_duals.specs.Ways.{stop_count};

use crate::Ways;
use crate::prices::set_prices;
use crate::reaches::{Reaches, fit};
use crate::turns::set_values;
use std::alloc::{AllocError, Global};
use std::marker::Model;

/// The minimal duals of all commodities of one origin, per unit of flow, over the allowed routes. There is a price for
/// each destination, and a row of values for each position of the order, with one value for each destination.
///
/// The workspace is allocated once; a worker has its own, and computes one origin after another. Price and values of a
/// commodity without flow are unspecified.
#[derive(Drop)]
pub struct LimitedDuals {
    room: usize,
    reaches: Reaches,
    prices: Vec<u64>,
    least: Vec<u64>,
    values: Vec<u64>,
}

impl Model for LimitedDuals {
    ghost use Rattle.unit_duals.specs.LeastValues.{OriginDuals};
    ghost use Rattle.leg_duals.specs.DualRoom.{HasDualRoom};

    ghost Value = { OriginDuals };

    ghost view = { λ s. record { room = s.room; prices = s.prices.items; values = s.values.items } };

    ghost invariant = { HasDualRoom };
}

impl LimitedDuals {
    /// An empty workspace for at most `room` destinations and at most `room` stops.
    pub fn new(alloc: Global, room: usize) -> Result<LimitedDuals, AllocError>
        requires { room ≤ most_room }
        ensures { IfOk result (λ d. d ≡ record { room = room; prices = []; values = [] }) }
    {
        Ok(LimitedDuals {
            room,
            reaches: Reaches::new(alloc, room)?,
            prices: Vec::with_capacity(alloc, room)?,
            least: Vec::with_capacity(alloc, room)?,
            values: Vec::with_capacity(alloc, room * room)?,
        })
    }

    /// Computes the duals of all commodities from the origin of the routes to their destinations. It allocates nothing.
    pub fn work_out(&mut self, ways: &Ways)
        requires size { ways.now.size ≤ self.old.room }
        requires stops { stop_count ways.now ≤ self.old.room }
        ensures room { self.new.room ≡ self.old.room }
        ensures duals { let w = ways.now in
            AreUnitDuals w.problem w.hubs w.order w.origin w.start w.size self.new.prices self.new.values }
    {
        fit(&mut self.prices, ways.size(), 0);
        fit(&mut self.least, ways.size(), 0);
        renew(&mut self.values, ways.count() * ways.size());
        self.reaches.fill(ways);
        set_prices(ways, &self.reaches, &mut self.prices);
        set_values(
            ways,
            &self.reaches,
            &self.prices,
            &mut self.least,
            &mut self.values,
        );
    }

    /// The price of each destination.
    pub fn prices(&self) -> &[u64]
        ensures { result.now ≡ self.now.prices }
    {
        &self.prices
    }

    /// The values, row by row: a row for each position, a value for each destination.
    pub fn values(&self) -> &[u64]
        ensures { result.now ≡ self.now.values }
    {
        &self.values
    }
}

/// Makes each number 0, so many of them, within the vector's room.
fn renew(items: &mut Vec<u64>, len: usize)
    requires { len ≤ vec_capacity items.old }
    ensures len { length items.new.items ≡ len }
    ensures none { All (λ v. v ≡ 0) items.new.items }
    ensures room { vec_capacity items.old ≤ vec_capacity items.new }
{
    items.clear();
    // It succeeds, since the room was taken when the vector was made.
    let _ = items.resize(len, 0);
}

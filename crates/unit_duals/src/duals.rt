//! The duals of one origin.

ghost use Rattle.std.specs.Prelude.{◌≡◌, ◌+◌, ◌*◌, ◌<◌, ◌≤◌, [], IfOk};
ghost use Rattle.unit_duals.specs.Limits.{most_room};
ghost use Rattle.unit_duals.specs.Lengths.{AreFirstLegs, stops};
ghost use Rattle.unit_duals.specs.LeastValues.{ArePrices, AreLeastValues};

use crate::Tables;
use crate::filling::fit;
use crate::lengths::{set_prices, set_reach};
use crate::turns::{OriginLengths, pull_values};
use std::alloc::{AllocError, Global};
use std::marker::Model;

/// The minimal duals of all commodities of one origin, per unit of flow. There is a price for each destination, and a
/// row of values for each position of the order, with one value for each destination.
///
/// The workspace is allocated once. A worker has its own, and computes one origin after another.
#[derive(Drop)]
pub struct UnitDuals {
    room: usize,
    prices: Vec<u64>,
    reach: Vec<u64>,
    slack: Vec<u64>,
    rest: Vec<u64>,
    values: Vec<u64>,
}

impl Model for UnitDuals {
    ghost use Rattle.unit_duals.specs.LeastValues.{OriginDuals};

    ghost Value = { OriginDuals };

    ghost use Rattle.unit_duals.specs.DualParts.{HasDualRoom};

    ghost view = { λ s. record { room = s.room; prices = s.prices.items; values = s.values.items } };

    ghost invariant = { HasDualRoom };
}

impl UnitDuals {
    /// An empty workspace for at most `room` destinations and at most `room` stops.
    pub fn new(alloc: Global, room: usize) -> Result<UnitDuals, AllocError>
        requires { room ≤ most_room }
        ensures { IfOk result (λ d. d ≡ record { room = room; prices = []; values = [] }) }
    {
        Ok(UnitDuals {
            room,
            prices: Vec::with_capacity(alloc, room)?,
            reach: Vec::with_capacity(alloc, room)?,
            slack: Vec::with_capacity(alloc, room * room)?,
            rest: Vec::with_capacity(alloc, room * room)?,
            values: Vec::with_capacity(alloc, room * room)?,
        })
    }

    /// Computes the duals of the origin whose legs to the stops are `first`. It allocates nothing.
    ///
    /// Each price is the least length through the hubs. Each position, in order, gets the least feasible value.
    pub fn values_from(&mut self, tables: &Tables, first: &[u64])
        requires some_hub { 1 ≤ tables.now.legs.hubs }
        requires size { tables.now.legs.size ≤ self.old.room }
        requires stops { stops tables.now.legs ≤ self.old.room }
        requires first { AreFirstLegs tables.now.legs first.now }
        ensures room { self.new.room ≡ self.old.room }
        ensures prices { ArePrices tables.now.legs first.now self.new.prices }
        ensures values { AreLeastValues tables.now.legs first.now self.new.prices self.new.values }
    {
        let cells = tables.count() * tables.size();
        fit(&mut self.prices, tables.size(), 0);
        fit(&mut self.reach, tables.stops(), 0);
        fit(&mut self.slack, cells, 0);
        fit(&mut self.rest, cells, 0);
        fit(&mut self.values, cells, 0);
        set_prices(tables, first, &mut self.prices);
        set_reach(tables, first, &mut self.reach);
        let lengths = OriginLengths {
            tables,
            prices: &self.prices,
            first,
            reach: &self.reach,
        };
        pull_values(&lengths, &mut self.slack, &mut self.rest, &mut self.values);
    }

    /// The price of each destination.
    pub fn prices(&self) -> &[u64]
        ensures { result.now ≡ self.now.prices }
    {
        &self.prices
    }

    /// The values, row by row: a row for each position, a value for each destination.
    pub fn values(&self) -> &[u64]
        ensures { result.now ≡ self.now.values }
    {
        &self.values
    }
}

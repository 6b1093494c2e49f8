//! The duals of all commodities of one origin.

ghost use Rattle.std.specs.Prelude.{◌≡◌, ◌+◌, ◌*◌, ◌<◌, ◌≤◌, [], length, IfOk};
ghost use Rattle.unit_duals.specs.Limits.{most_room};
ghost use Rattle.leg_duals.specs.StopLegs.{AreFirstLegsOf};
ghost use Rattle.pareto_cuts.specs.UnitCosts.{AreDualsFrom};

use crate::Separation;
use leg_duals::{FirstLegs, LimitedDuals, Stops, Ways};
use std::alloc::{AllocError, Global};
use std::marker::Model;
use unit_duals::UnitDuals;

/// A workspace for the duals of one origin, per unit of flow. It is allocated once, and each worker has its own.
#[derive(Drop)]
pub struct OriginScratch {
    first: FirstLegs,
    unit: UnitDuals,
    limited: LimitedDuals,
    // Whether those that were worked out last are the limited ones.
    is_limited: bool,
}

impl Model for OriginScratch {
    ghost use Rattle.unit_duals.specs.LeastValues.{OriginDuals};
    ghost use Rattle.pareto_cuts.specs.OriginParts.{held_duals, HasOriginRoom};

    ghost Value = { OriginDuals };

    ghost view = { held_duals };

    ghost invariant = { HasOriginRoom };
}

impl OriginScratch {
    /// An empty workspace for at most `room` destinations and at most `room` hubs and candidates of the order.
    pub fn new(alloc: Global, room: usize) -> Result<OriginScratch, AllocError>
        requires { room ≤ most_room }
        ensures { IfOk result (λ o. o ≡ record { room = room; prices = []; values = [] }) }
    {
        Ok(OriginScratch {
            first: FirstLegs::new(alloc, room)?,
            unit: UnitDuals::new(alloc, room)?,
            limited: LimitedDuals::new(alloc, room)?,
            is_limited: false,
        })
    }

    /// Computes the duals of all commodities from `i` to the separation's destinations. It allocates nothing.
    pub fn work_out(&mut self, separation: &Separation, i: u32)
        requires origin { i < separation.now.problem.size }
        requires room { separation.now.problem.size ≤ self.old.room }
        ensures room { self.new.room ≡ self.old.room }
        ensures duals { AreDualsFrom separation.now i self.new.prices self.new.values }
    {
        self.first.fill(
            separation.instance(),
            separation.hubs(),
            separation.order(),
            i,
        );
        match separation.tables_of_any_length() {
            Some(tables) => {
                self.is_limited = false;
                self.unit.values_from(tables, self.first.as_slice());
            }
            None => {
                self.is_limited = true;
                work_out_limited(separation, self.first.as_slice(), i, &mut self.limited);
            }
        }
    }

    /// The price of each destination, by unit of flow.
    pub(crate) fn prices(&self) -> &[u64]
        ensures { result.now ≡ self.now.prices }
    {
        if self.is_limited {
            self.limited.prices()
        } else {
            self.unit.prices()
        }
    }

    /// The values, row by row: a row for each candidate of the order, a value for each destination, by unit of flow.
    pub(crate) fn values(&self) -> &[u64]
        ensures { result.now ≡ self.now.values }
    {
        if self.is_limited {
            self.limited.values()
        } else {
            self.unit.values()
        }
    }
}

/// Works out the duals over the routes that are allowed, whatever their length is limited to.
fn work_out_limited(separation: &Separation, first: &[u64], i: u32, duals: &mut LimitedDuals)
    requires origin { i < separation.now.problem.size }
    requires room { separation.now.problem.size ≤ duals.old.room }
    requires first { let s = separation.now in AreFirstLegsOf s.problem s.hubs s.order i first.now }
    ensures room { duals.new.room ≡ duals.old.room }
    ensures duals { AreDualsFrom separation.now i duals.new.prices duals.new.values }
{
    let legs = separation.tables().legs();
    let stops = Stops {
        hubs: separation.hubs(),
        order: separation.order(),
    };
    let instance = separation.instance();
    let ways = Ways::new(instance, stops, separation.start(), i, &legs, first);
    duals.work_out(&ways);
}

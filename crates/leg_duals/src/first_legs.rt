//! The legs from one origin.

ghost use Rattle.std.specs.Prelude.{◌≡◌, ◌+◌, ◌<◌, ◌≤◌, [], length, All, IfOk};
ghost use Rattle.unit_duals.specs.Limits.{most_room};
ghost use Rattle.leg_duals.specs.StopLegs.{AreFirstLegsOf};

use crate::filling::{fit, set_first};
use hub_model::Instance;
use std::alloc::{AllocError, Global};
use std::marker::Model;

/// The legs from one origin to the stops, per unit of flow. The workspace is allocated once, and each worker has its
/// own.
#[derive(Drop)]
pub struct FirstLegs {
    room: usize,
    items: Vec<u64>,
}

impl Model for FirstLegs {
    ghost use Rattle.leg_duals.specs.StopLegs.{RoomedFirst};

    ghost Value = { RoomedFirst };

    ghost use Rattle.leg_duals.specs.LegParts.{HasFirstRoom};

    ghost view = { λ s. record { room = s.room; items = s.items.items } };

    ghost invariant = { HasFirstRoom };
}

impl FirstLegs {
    /// An empty workspace for at most `room` stops.
    pub fn new(alloc: Global, room: usize) -> Result<FirstLegs, AllocError>
        requires { room ≤ most_room }
        ensures { IfOk result (λ f. f ≡ record { room = room; items = [] }) }
    {
        Ok(FirstLegs {
            room,
            items: Vec::with_capacity(alloc, room)?,
        })
    }

    /// Fills this with the legs from the origin `i` to the positions of the order and to the hubs. It allocates
    /// nothing.
    pub fn fill(&mut self, instance: &Instance, hubs: &[u32], order: &[u32], i: u32)
        requires hubs { All (λ k. k < instance.now.size) hubs.now }
        requires order { All (λ k. k < instance.now.size) order.now }
        requires origin { i < instance.now.size }
        requires room_stops { length order.now + length hubs.now ≤ self.old.room }
        ensures room { self.new.room ≡ self.old.room }
        ensures legs { AreFirstLegsOf instance.now hubs.now order.now i self.new.items }
    {
        fit(&mut self.items, order.len() + hubs.len());
        set_first(instance, hubs, order, i, &mut self.items);
    }

    /// The legs, one for each stop.
    pub fn as_slice(&self) -> &[u64]
        ensures { result.now ≡ self.now.items }
    {
        &self.items
    }
}

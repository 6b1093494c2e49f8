//! The legs of a hub set and an order.

ghost use Rattle.std.specs.Prelude.{◌≡◌, ◌+◌, ◌<◌, ◌≤◌, length, All, IfOk};
ghost use Rattle.unit_duals.specs.Limits.{most_room};
ghost use Rattle.unit_duals.specs.Lengths.{no_legs};
ghost use Rattle.leg_duals.specs.StopLegs.{AreLegsOf};

use crate::filling::{fit, set_last, set_trunk};
use hub_model::Instance;
use std::alloc::{AllocError, Global};
use std::marker::Model;
use unit_duals::Legs;

/// The legs of a hub set and an order, per unit of flow. The workspace is allocated once.
#[derive(Drop)]
pub struct SetLegs {
    room: usize,
    size: usize,
    count: usize,
    hubs: usize,
    trunk: Vec<u64>,
    last: Vec<u64>,
}

impl Model for SetLegs {
    ghost use Rattle.unit_duals.specs.Lengths.{RoomedLegs};

    ghost Value = { RoomedLegs };

    ghost use Rattle.leg_duals.specs.LegParts.{held_legs, AreLegParts};

    ghost view = { λ s. record { room = s.room; legs = held_legs s } };

    ghost invariant = { AreLegParts };
}

impl SetLegs {
    /// An empty workspace for at most `room` destinations and at most `room` stops.
    pub fn new(alloc: Global, room: usize) -> Result<SetLegs, AllocError>
        requires { room ≤ most_room }
        ensures { IfOk result (λ s. s ≡ record { room = room; legs = no_legs }) }
    {
        Ok(SetLegs {
            room,
            size: 0,
            count: 0,
            hubs: 0,
            trunk: Vec::with_capacity(alloc, room * room)?,
            last: Vec::with_capacity(alloc, room * room)?,
        })
    }

    /// Fills this with the legs of the hubs and the order, for `size` destinations from `start` on. It allocates
    /// nothing.
    pub fn fill(&mut self, instance: &Instance, hubs: &[u32], order: &[u32], start: u32, size: u32)
        requires hubs { All (λ k. k < instance.now.size) hubs.now }
        requires order { All (λ k. k < instance.now.size) order.now }
        requires destinations { start + size ≤ instance.now.size }
        requires room_size { size ≤ self.old.room }
        requires room_stops { length order.now + length hubs.now ≤ self.old.room }
        ensures room { self.new.room ≡ self.old.room }
        ensures size { self.new.legs.size ≡ size }
        ensures legs { AreLegsOf instance.now hubs.now order.now start self.new.legs }
    {
        let stops = order.len() + hubs.len();
        self.size = size as usize;
        self.count = order.len();
        self.hubs = hubs.len();
        fit(&mut self.trunk, stops * stops);
        fit(&mut self.last, stops * size as usize);
        set_trunk(instance, hubs, order, &mut self.trunk);
        set_last(instance, hubs, order, start, size, &mut self.last);
    }

    /// The legs, in the form that `unit_duals` takes.
    pub fn legs(&self) -> Legs<'_>
        ensures { result ≡ self.now.legs }
    {
        Legs::new(self.size, self.count, self.hubs, &self.trunk, &self.last)
    }
}

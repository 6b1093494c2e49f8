//! The whole workspace for duals, for a single thread.

ghost use Rattle.std.specs.Prelude.{◌≡◌, ℕ, ◌+◌, ◌^◌, ◌<◌, ◌≤◌, [], pos, length, slice_index, All, IfOk};
ghost use Rattle.hub_spec.specs.Problem.{IsProblem};
ghost use Rattle.hub_spec.specs.Plans.{IsHubSet};
ghost use Rattle.hub_spec.specs.Separation.{IsOrder, minimal_dual, AreListedValues};
ghost use Rattle.hub_model.specs.Prices.{signed_values};
ghost use Rattle.unit_duals.specs.Lengths.{no_legs};
ghost use Rattle.pareto_cuts.specs.Scratches.{IsReadyFor, HasDualsFrom};
ghost use Rattle.pareto_cuts.specs.Separations.{origin_total, origin_load};

use crate::{DualBuffer, OriginScratch, Separation, SetTables};
use hub_model::{HubSet, Instance};
use std::alloc::{AllocError, Global};
use std::marker::Model;

/// The workspace for the duals of an instance with at most so many nodes. `strong_dual_in` computes one commodity. For
/// a hub set and an order, `prepare` comes first, then `work_out` for each origin, and then `make_dual`, `total` and
/// `add_loads`.
#[derive(Drop)]
pub struct Scratch {
    tables: SetTables,
    origin: OriginScratch,
    dual: DualBuffer,
}

impl Model for Scratch {
    ghost use Rattle.std.specs.Prelude.{◌≡◌};
    ghost use Rattle.pareto_cuts.specs.Scratches.{ScratchParts};

    ghost Value = { ScratchParts };

    ghost view = { λ s. record {
      room = s.tables.room;
      legs = s.tables.legs;
      prices = s.origin.prices;
      values = s.origin.values;
      dual = s.dual.dual;
    } };

    ghost invariant = { λ s. (s.origin.room ≡ s.tables.room) × (s.dual.room ≡ s.tables.room) };
}

impl Scratch {
    /// A workspace for the instance's number of nodes, with the zero dual.
    pub fn new(alloc: Global, instance: &Instance) -> Result<Scratch, AllocError>
        ensures room { IfOk result (λ s. s.room ≡ instance.now.size) }
        ensures dual { IfOk result (λ s. s.dual ≡ record { a = 0; u = [] }) }
    {
        let room = instance.size() as usize;
        Ok(Scratch {
            tables: SetTables::new(alloc, room)?,
            origin: OriginScratch::new(alloc, room)?,
            dual: DualBuffer::new(alloc, room)?,
        })
    }

    /// Prepares the tables for the duals of the hub set over the order. It allocates nothing.
    pub fn prepare(&mut self, instance: &Instance, set: &HubSet, order: &[u32])
        requires room { instance.now.size ≤ self.old.room }
        requires set { IsHubSet instance.now set.now }
        requires order { IsOrder instance.now set.now order.now }
        ensures room { self.new.room ≡ self.old.room }
        ensures ready { IsReadyFor instance.now set.now order.now self.new }
    {
        self.tables.fill(instance, set, order, None);
    }

    /// Computes the duals of all commodities from `i`. It allocates nothing.
    pub fn work_out(&mut self, instance: &Instance, set: &HubSet, order: &[u32], i: u32)
        requires room { instance.now.size ≤ self.old.room }
        requires set { IsHubSet instance.now set.now }
        requires order { IsOrder instance.now set.now order.now }
        requires ready { IsReadyFor instance.now set.now order.now self.old }
        requires origin { i < instance.now.size }
        ensures room { self.new.room ≡ self.old.room }
        ensures duals { HasDualsFrom instance.now set.now order.now i self.new }
    {
        let separation = Separation::new(instance, set.members(), order, 0, &self.tables);
        self.origin.work_out(&separation, i);
    }

    /// Makes the dual of the commodity from `i` to `j`, after `work_out` of `i`. It allocates nothing.
    pub fn make_dual(&mut self, instance: &Instance, set: &HubSet, order: &[u32], i: u32, j: u32)
        requires room { instance.now.size ≤ self.old.room }
        requires set { IsHubSet instance.now set.now }
        requires order { IsOrder instance.now set.now order.now }
        requires origin { i < instance.now.size }
        requires destination { j < instance.now.size }
        requires duals { HasDualsFrom instance.now set.now order.now i self.old }
        ensures room { self.new.room ≡ self.old.room }
        ensures duals { HasDualsFrom instance.now set.now order.now i self.new }
        ensures dual { self.new.dual ≡ minimal_dual instance.now set.now order.now (i, j) }
    {
        let separation = Separation::new(instance, set.members(), order, 0, &self.tables);
        self.dual.make(&separation, &self.origin, i, j as usize);
    }

    /// Makes the dual of the one commodity from `i` to `j`, whatever was worked out before. It takes no memory.
    pub(crate) fn make_single(
        &mut self,
        instance: &Instance,
        set: &HubSet,
        order: &[u32],
        i: u32,
        j: u32,
    )
        requires room { instance.now.size ≤ self.old.room }
        requires set { IsHubSet instance.now set.now }
        requires order { IsOrder instance.now set.now order.now }
        requires origin { i < instance.now.size }
        requires destination { j < instance.now.size }
        ensures room { self.new.room ≡ self.old.room }
        ensures problem { IsProblem instance.now }
        ensures dual { self.new.dual ≡ minimal_dual instance.now set.now order.now (i, j) }
    {
        self.tables.fill(instance, set, order, Some(j));
        let separation = Separation::new(instance, set.members(), order, j, &self.tables);
        self.origin.work_out(&separation, i);
        self.dual.make(&separation, &self.origin, i, 0);
    }

    /// The dual that was made last: its price, and its nodes with their values, ascending, each above 0. All are in
    /// 10^-12.
    pub fn dual(&self) -> (i128, &[(u32, i128)])
        ensures price { result.0 ≡ pos self.now.dual.a }
        ensures values { result.1.now ≡ signed_values self.now.dual.u }
        ensures listed { AreListedValues self.now.dual.u }
    {
        self.dual.dual()
    }

    /// The sum of the prices of the duals computed for `i`, in 10^-12.
    pub fn total(&self, instance: &Instance, set: &HubSet, order: &[u32], i: u32) -> u128
        requires set { IsHubSet instance.now set.now }
        requires order { IsOrder instance.now set.now order.now }
        requires origin { i < instance.now.size }
        requires duals { HasDualsFrom instance.now set.now order.now i self.now }
        ensures { result ≡ origin_total instance.now set.now order.now i 0 instance.now.size }
    {
        let separation = Separation::new(instance, set.members(), order, 0, &self.tables);
        self.origin.total(&separation, i)
    }

    /// Adds the values of the duals computed for `i` to the loads, one load for each node, in 10^-12.
    pub fn add_loads(
        &self,
        instance: &Instance,
        set: &HubSet,
        order: &[u32],
        i: u32,
        loads: &mut [u128],
    )
        requires set { IsHubSet instance.now set.now }
        requires order { IsOrder instance.now set.now order.now }
        requires origin { i < instance.now.size }
        requires duals { HasDualsFrom instance.now set.now order.now i self.now }
        requires long { length loads.old ≡ instance.now.size }
        requires limit { All (λ v. v ≤ 2 ^ 120) loads.old }
        ensures long { length loads.new ≡ length loads.old }
        ensures loads { (k : ℕ) → k < instance.now.size → slice_index loads.new k
            ≡ slice_index loads.old k + origin_load instance.now set.now order.now i 0 instance.now.size k }
    {
        let separation = Separation::new(instance, set.members(), order, 0, &self.tables);
        self.origin.add_loads(&separation, i, loads);
    }
}

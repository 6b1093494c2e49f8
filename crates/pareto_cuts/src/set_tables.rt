//! What a hub set and an order need once: the legs, and, without a length limit, the tables made from them.

ghost use Rattle.std.specs.Prelude.{◌≡◌, ◌+◌, ◌<◌, ◌≤◌, IfOk, IfSome, IsNone};
ghost use Rattle.hub_spec.specs.Problem.{IsProblem};
ghost use Rattle.hub_spec.specs.Plans.{IsHubSet};
ghost use Rattle.hub_spec.specs.Separation.{IsOrder};
ghost use Rattle.unit_duals.specs.Limits.{most_room};
ghost use Rattle.unit_duals.specs.Lengths.{no_legs};
ghost use Rattle.pareto_cuts.specs.Separations.{AreTablesOf};

use hub_model::{HubSet, Instance};
use leg_duals::SetLegs;
use std::alloc::{AllocError, Global};
use std::marker::Model;
use unit_duals::{Legs, Tables};

/// The tables of a hub set and an order. The workspace is allocated once.
///
/// They are only read while the duals of origins are computed, so several workers may share them.
#[derive(Drop)]
pub struct SetTables {
    legs: SetLegs,
    tables: Tables,
    // Whether the tables are those of the legs. They are not filled where the length of routes is limited.
    is_filled: bool,
}

impl Model for SetTables {
    ghost use Rattle.unit_duals.specs.Lengths.{RoomedLegs};
    ghost use Rattle.pareto_cuts.specs.TableParts.{AreSetTables};

    ghost Value = { RoomedLegs };

    ghost view = { λ s. s.legs };

    ghost invariant = { AreSetTables };
}

impl SetTables {
    /// An empty workspace for at most `room` destinations and at most `room` hubs and candidates of the order.
    pub fn new(alloc: Global, room: usize) -> Result<SetTables, AllocError>
        requires { room ≤ most_room }
        ensures { IfOk result (λ t. t ≡ record { room = room; legs = no_legs }) }
    {
        Ok(SetTables {
            legs: SetLegs::new(alloc, room)?,
            tables: Tables::new(alloc, room)?,
            is_filled: false,
        })
    }

    /// Fills the tables for the hub set and the order, with one destination or all nodes. It allocates nothing.
    pub fn fill(
        &mut self,
        instance: &Instance,
        set: &HubSet,
        order: &[u32],
        destination: Option<u32>,
    )
        requires room { instance.now.size ≤ self.old.room }
        requires set { IsHubSet instance.now set.now }
        requires order { IsOrder instance.now set.now order.now }
        requires destination { IfSome destination (λ j. j < instance.now.size) }
        ensures problem { IsProblem instance.now }
        ensures room { self.new.room ≡ self.old.room }
        ensures all { IsNone destination → AreTablesOf instance.now set.now order.now 0 instance.now.size self.new.legs }
        ensures one { IfSome destination (λ j. AreTablesOf instance.now set.now order.now j 1 self.new.legs) }
    {
        let nodes = instance.size();
        match destination {
            Some(j) => self.fill_legs(instance, set.members(), order, j, 1),
            None => self.fill_legs(instance, set.members(), order, 0, nodes),
        }
    }

    // The same for `size` destinations from `start` on.
    fn fill_legs(&mut self, instance: &Instance, hubs: &[u32], order: &[u32], start: u32, size: u32)
        requires problem { IsProblem instance.now }
        requires room { instance.now.size ≤ self.old.room }
        requires set { IsHubSet instance.now hubs.now }
        requires order { IsOrder instance.now hubs.now order.now }
        requires destinations { start + size ≤ instance.now.size }
        ensures room { self.new.room ≡ self.old.room }
        ensures tables { AreTablesOf instance.now hubs.now order.now start size self.new.legs }
    {
        self.legs.fill(instance, hubs, order, start, size);
        self.is_filled = instance.length_limit().is_none();
        if self.is_filled {
            self.tables.fill(&self.legs.legs());
        }
    }

    /// The legs by unit of flow.
    pub(crate) fn legs(&self) -> Legs<'_>
        ensures { result ≡ self.now.legs }
    {
        self.legs.legs()
    }

    /// The tables by unit of flow, if they are filled.
    pub(crate) fn tables(&self) -> Option<&Tables>
        ensures { IfSome result (λ t. t.now ≡ self.now) }
    {
        if self.is_filled {
            Some(&self.tables)
        } else {
            None
        }
    }
}

//! Everything that the duals of an origin depend on.

ghost use Rattle.std.specs.Prelude.{◌≡◌, ◌+◌, ◌≤◌, length, None, IfSome};
ghost use Rattle.hub_spec.specs.Problem.{IsProblem};
ghost use Rattle.hub_spec.specs.Plans.{IsHubSet};
ghost use Rattle.hub_spec.specs.Separation.{IsOrder};
ghost use Rattle.leg_duals.specs.StopLegs.{AreLegsOf};
ghost use Rattle.pareto_cuts.specs.Separations.{IsSeparation};

use crate::SetTables;
use hub_model::Instance;
use std::marker::Model;
use unit_duals::Tables;

/// A hub set and an order of the other candidates, with their tables, and the destinations: a run of nodes from `start`
/// on.
#[derive(Drop)]
pub struct Separation<'a> {
    instance: &'a Instance,
    candidates: &'a [u32],
    hubs: &'a [u32],
    order: &'a [u32],
    start: u32,
    tables: &'a SetTables,
}

impl<'a> Model for Separation<'a> {
    ghost use Rattle.pareto_cuts.specs.Separations.{SetSeparation};
    ghost use Rattle.pareto_cuts.specs.SeparationParts.{held_separation, AreSeparationParts};

    ghost Value = { SetSeparation };

    ghost view = { held_separation };

    ghost invariant = { AreSeparationParts };
}

impl<'a> Separation<'a> {
    /// The separation of these hubs over this order, with tables that were filled for them.
    pub fn new(
        instance: &'a Instance,
        hubs: &'a [u32],
        order: &'a [u32],
        start: u32,
        tables: &'a SetTables,
    ) -> Separation<'a>
        requires set { IsHubSet instance.now hubs.now }
        requires order { IsOrder instance.now hubs.now order.now }
        requires tables { AreLegsOf instance.now hubs.now order.now start tables.now.legs }
        ensures { result ≡ record { problem = instance.now; hubs = hubs.now; order = order.now; start = start; legs = tables.now.legs } }
    {
        Separation {
            instance,
            candidates: instance.candidates(),
            hubs,
            order,
            start,
            tables,
        }
    }

    /// The instance.
    pub fn instance(&self) -> &Instance
        ensures value { result.now ≡ self.now.problem }
        ensures separation { IsSeparation self.now }
    {
        self.instance
    }

    /// The candidates, ascending.
    pub fn candidates(&self) -> &[u32]
        ensures value { result.now ≡ self.now.problem.candidates }
        ensures separation { IsSeparation self.now }
    {
        self.candidates
    }

    /// The hubs.
    pub fn hubs(&self) -> &[u32]
        ensures value { result.now ≡ self.now.hubs }
        ensures separation { IsSeparation self.now }
    {
        self.hubs
    }

    /// The other candidates, in their order.
    pub fn order(&self) -> &[u32]
        ensures value { result.now ≡ self.now.order }
        ensures separation { IsSeparation self.now }
    {
        self.order
    }

    /// The first destination.
    pub fn start(&self) -> u32
        ensures value { result ≡ self.now.start }
        ensures separation { IsSeparation self.now }
    {
        self.start
    }

    /// The tables.
    pub fn tables(&self) -> &SetTables
        ensures value { result.now.legs ≡ self.now.legs }
        ensures separation { IsSeparation self.now }
    {
        self.tables
    }

    /// The tables by unit of flow, where the length of routes is not limited and they are filled.
    pub(crate) fn tables_of_any_length(&self) -> Option<&Tables>
        ensures value { IfSome result (λ t. t.now.legs ≡ self.now.legs) }
        ensures any_length { IfSome result (λ _. self.now.problem.longest ≡ None) }
    {
        match self.instance.length_limit() {
            None => self.tables.tables(),
            Some(_) => None,
        }
    }
}

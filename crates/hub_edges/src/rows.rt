//! The edge row of a commodity.

ghost use Rattle.std.specs.Prelude.{◌≡◌, ◌<◌, ◌≤◌, pos, IfOk, Contains};
ghost use Rattle.hub_spec.specs.Limits.{most_cost};
ghost use Rattle.hub_spec.specs.Edges.{IsLeastCost};
ghost use Rattle.hub_spec.specs.Plans.{IsHubSet};
ghost use Rattle.hub_spec.specs.Problem.{IsProblem};
ghost use Rattle.hub_model.specs.Amounts.{natural};
ghost use Rattle.hub_edges.specs.Rows.{Entry, IsBefore, IsEdgeRow, IsInside, RowIsOne};

use crate::entries::entries_of;
use crate::picking::first_inside;
use hub_model::{HubSet, Instance};
use std::alloc::{AllocError, Global};
use std::marker::Model;

/// The single hubs and the needed hub edges of one commodity, each in its cheaper direction. It borrows the instance.
///
/// An entry has the first and last hub of a route and its cost, in 10^-12. Entries ascend by cost, then by first hub,
/// then by last hub.
#[derive(Drop)]
pub struct EdgeRow<'a> {
    instance: &'a Instance,
    from: u32,
    to: u32,
    entries: Vec<(u32, u32, i128)>,
}

impl<'a> Model for EdgeRow<'a> {
    ghost use Rattle.hub_edges.specs.Rows.{Row, IsRow};

    ghost Value = { Row };

    ghost view = { λ s. record { problem = s.instance.now; commodity = (s.from, s.to); entries = s.entries.items } };

    ghost invariant = { λ s. IsRow (record { problem = s.instance.now; commodity = (s.from, s.to); entries = s.entries.items }) };
}

impl<'a> EdgeRow<'a> {
    /// The edge row of the commodity from `i` to `j`. It fails where memory runs out.
    pub fn of(
        alloc: Global,
        instance: &'a Instance,
        i: u32,
        j: u32,
    ) -> Result<EdgeRow<'a>, AllocError>
        requires from { i < instance.now.size }
        requires to { j < instance.now.size }
        ensures problem { IfOk result (λ row. row.problem ≡ instance.now) }
        ensures commodity { IfOk result (λ row. row.commodity ≡ (i, j)) }
    {
        let entries = entries_of(alloc, instance, i, j)?;
        Ok(EdgeRow {
            instance,
            from: i,
            to: j,
            entries,
        })
    }

    /// The entries, cheapest first.
    pub fn entries(&self) -> &[(u32, u32, i128)]
        ensures value { result.now ≡ self.now.entries }
        ensures row { IsEdgeRow self.now.problem self.now.commodity self.now.entries }
    {
        &self.entries
    }

    /// The instance.
    pub fn instance(&self) -> &Instance
        ensures value { result.now ≡ self.now.problem }
        ensures problem { IsProblem self.now.problem }
    {
        self.instance
    }

    /// The origin of the commodity.
    pub fn from(&self) -> u32
        ensures value { result ≡ self.now.commodity.0 }
        ensures node { result < self.now.problem.size }
    {
        self.from
    }

    /// The destination of the commodity.
    pub fn to(&self) -> u32
        ensures value { result ≡ self.now.commodity.1 }
        ensures node { result < self.now.problem.size }
    {
        self.to
    }

    /// The first entry whose hubs are both in the set: the least cost of the commodity through the set. It allocates
    /// nothing.
    pub fn cheapest_in(&self, set: &HubSet) -> (u32, u32, i128)
        requires { IsHubSet self.now.problem set.now }
        ensures entry { Contains self.now.entries result }
        ensures inside { IsInside set.now result }
        ensures least { IsLeastCost self.now.problem set.now self.now.commodity (natural result.2) }
        ensures cost { result.2 ≡ pos (natural result.2) }
        ensures limit { natural result.2 ≤ most_cost }
        ensures first { (e : Entry) → Contains self.now.entries e → IsInside set.now e → IsBefore e result → ⊥ }
    {
        first_inside(&self.entries, set.members())
    }
}

/// The edge row of a commodity is unique.
pub fn row_is_one()
    ensures { RowIsOne }
{}

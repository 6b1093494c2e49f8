//! The edges of a commodity with their costs.

ghost use Rattle.std.specs.Prelude.{◌≡◌, ◌↔◌, ◌<◌, ◌≤◌, ◌++◌, ◌∷◌, [], None, map, filter, pos, All, IfOk, OnOk, IsTrue};
ghost use Rattle.core_spec.specs.CoreCuts.{pair_cost};
ghost use Rattle.core_cuts.specs.CoreTables.{is_needed};
ghost use Rattle.core_cuts.specs.Ahead.{AreCosts, AreWays, IsAnyLength};
ghost use Rattle.core_cuts.specs.Bodies.{most_unit};

use crate::edges::{CoreCommodity, needed_right, single_costs, single_hubs, unit_costs};
use hub_model::Instance;
use std::alloc::{AllocError, Global};

/// Ways, and what each costs by unit of flow, in 10^-6.
#[derive(Drop)]
pub(crate) struct RouteWays {
    pub(crate) edges: Vec<(u32, u32)>,
    pub(crate) rights: Vec<i64>,
}

impl RouteWays {
    /// Those of the commodity from `i` to `j`.
    pub(crate) fn of(
        alloc: Global,
        instance: &Instance,
        i: u32,
        j: u32,
    ) -> Result<RouteWays, AllocError>
        requires any_length { instance.now.longest ≡ None }
        requires from { i < instance.now.size }
        requires to { j < instance.now.size }
        ensures { IfOk result (λ ways. AreWays instance.now (i, j) ways.edges.items ways.rights.items) }
    {
        let candidates = instance.candidates();
        let edges = single_hubs(alloc, candidates)?;
        let costs = single_costs(alloc, instance, i, j, candidates)?;
        let rights = unit_costs(alloc, &costs, instance.flow_between(i, j))?;
        let mut ways = RouteWays { edges, rights };
        let commodity = CoreCommodity { instance, i, j };
        for x in 0..candidates.len() {
            let later = &candidates[x + 1..];
            ways.add_needed(&commodity, candidates[x], costs[x], later, &costs[x + 1..])?;
        }
        Ok(ways)
    }

    /// Adds the needed edges of `k` and these later candidates. Each costs that much as a single hub.
    fn add_needed(
        &mut self,
        commodity: &CoreCommodity<'_>,
        k: u32,
        at_k: u128,
        later: &[u32],
        at_later: &[u128],
    ) -> Result<(), AllocError>
        requires commodity { IsAnyLength commodity.now }
        requires first { k < commodity.now.instance.now.size }
        requires later { All (λ m. m < commodity.now.instance.now.size) later.now }
        requires at_k { let c = commodity.now in at_k ≡ pair_cost c.instance.now (c.i, c.j) k k }
        requires at_later { let c = commodity.now in at_later.now ≡ map (λ m. pair_cost c.instance.now (c.i, c.j) m m) later.now }
        requires costs { let c = commodity.now in AreCosts c.instance.now (c.i, c.j) self.old.edges.items self.old.rights.items }
        ensures edges { let c = commodity.now in OnOk result (self.new.edges.items
            ≡ self.old.edges.items ++ filter (is_needed c.instance.now (c.i, c.j)) (map (λ m. (k, m)) later.now)) }
        ensures costs { let c = commodity.now in
            OnOk result (AreCosts c.instance.now (c.i, c.j) self.new.edges.items self.new.rights.items) }
    {
        for x in 0..later.len() {
            match needed_right(commodity, k, later[x], at_k, at_later[x]) {
                Some(right) => self.add(k, later[x], right)?,
                None => {}
            }
        }
        Ok(())
    }

    /// Adds a way with what it costs by unit of flow.
    fn add(&mut self, k: u32, m: u32, right: u64) -> Result<(), AllocError>
        requires { right ≤ most_unit }
        ensures edges { OnOk result (self.new.edges.items ≡ self.old.edges.items ++ (k, m) ∷ []) }
        ensures rights { OnOk result (self.new.rights.items ≡ self.old.rights.items ++ pos right ∷ []) }
    {
        self.edges.push((k, m))?;
        self.rights.push(right as i64)?;
        Ok(())
    }

    /// Tells whether the others are the same at the same costs.
    pub(crate) fn are_same(&self, others: &RouteWays) -> bool
        ensures { IsTrue result
            ↔ ((self.now.edges.items ≡ others.now.edges.items) × (self.now.rights.items ≡ others.now.rights.items)) }
    {
        are_same_edges(&self.edges, &others.edges) && are_same_rights(&self.rights, &others.rights)
    }
}

/// Tells whether the lists of ways are the same.
fn are_same_edges(edges: &[(u32, u32)], others: &[(u32, u32)]) -> bool
    ensures { IsTrue result ↔ (edges.now ≡ others.now) }
{
    edges == others
}

/// Tells whether the lists of costs are the same.
fn are_same_rights(rights: &[i64], others: &[i64]) -> bool
    ensures { IsTrue result ↔ (rights.now ≡ others.now) }
{
    rights == others
}

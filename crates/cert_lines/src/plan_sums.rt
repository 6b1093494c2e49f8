//! The sums of a plan.

ghost use Rattle.std.specs.Prelude.{◌≡◌, ℕ, ◌+◌, ◌*◌, ◌<◌, ◌↔◌, IsTrue, IfOk, All, Contains};
ghost use Rattle.hub_spec.specs.Plans.{HasWanted};
ghost use Rattle.cert_lines.specs.PlanTallies.{no_plan, with_hub, with_route};

use crate::NodeMarks;
use hub_model::Instance;
use std::alloc::{AllocError, Global};
use std::marker::Model;

/// The sums of a plan over the lines read so far: its hubs, the number of commodities with a route, and the cost of
/// hubs and routes.
#[derive(Drop)]
pub struct PlanSums {
    hubs: NodeMarks,
    hub_count: u32,
    routed: u32,
    cost: u128,
}

impl Model for PlanSums {
    ghost use Rattle.cert_lines.specs.PlanTallies.{PlanTally, tally_of, IsCounted};

    ghost Value = { PlanTally };

    ghost view = { λ s. tally_of s.hubs s.routed s.cost };

    ghost invariant = { λ s. IsCounted s.hub_count (tally_of s.hubs s.routed s.cost) };
}

impl PlanSums {
    /// Empty sums. Only this call allocates: a mark for each node.
    pub fn new(alloc: Global, instance: &Instance) -> Result<PlanSums, AllocError>
        ensures { IfOk result (λ sums. sums ≡ no_plan instance.now.size) }
    {
        Ok(PlanSums {
            hubs: NodeMarks::new(alloc, instance.size())?,
            hub_count: 0,
            routed: 0,
            cost: 0,
        })
    }

    /// Restarts with an empty plan.
    pub fn restart(&mut self)
        ensures { self.new ≡ no_plan self.old.size }
    {
        self.hubs.clear();
        self.hub_count = 0;
        self.routed = 0;
        self.cost = 0;
    }

    /// Tells, in constant time, whether the node is a hub of the plan.
    pub fn has_hub(&self, k: u32) -> bool
        ensures { IsTrue result ↔ Contains self.now.hubs k }
    {
        self.hubs.has(k)
    }

    /// Adds a hub, greater than those before it. It need not be a candidate.
    pub fn add_hub(&mut self, instance: &Instance, k: u32)
        requires nodes { self.old.size ≡ instance.now.size }
        requires node { k < self.old.size }
        requires above { All (λ (m : ℕ). m < k) self.old.hubs }
        ensures { self.new ≡ with_hub instance.now self.old k }
    {
        self.cost += instance.fixed_cost(k);
        self.hubs.add(k);
        self.hub_count += 1;
    }

    /// Tells, in constant time, whether the number of hubs is the wanted one. True where none is wanted.
    pub fn has_wanted(&self, instance: &Instance) -> bool
        ensures { IsTrue result ↔ HasWanted instance.now self.now.hubs }
    {
        match instance.wanted() {
            Some(wanted) => self.hub_count == wanted,
            None => true,
        }
    }

    /// Adds the route of the next commodity: its first and last hub.
    pub fn add_route(&mut self, instance: &Instance, commodity: (u32, u32), route: (u32, u32))
        requires nodes { self.old.size ≡ instance.now.size }
        requires from { commodity.0 < self.old.size }
        requires to { commodity.1 < self.old.size }
        requires next { commodity.0 * self.old.size + commodity.1 ≡ self.old.routed }
        requires first { route.0 < self.old.size }
        requires last { route.1 < self.old.size }
        ensures { self.new ≡ with_route instance.now self.old commodity route }
    {
        let (i, j) = commodity;
        let (first, last) = route;
        self.cost += instance.cost_of_route(i, j, first, last);
        self.routed += 1;
    }

    /// Tells whether each commodity has a route.
    pub fn is_whole(&self) -> bool
        ensures { IsTrue result ↔ self.now.routed ≡ self.now.size * self.now.size }
    {
        let size = self.hubs.marks().len();
        self.routed as usize == size * size
    }

    /// The cost of the hubs and routes so far, in 10^-12.
    pub fn cost(&self) -> u128
        ensures { result ≡ self.now.cost }
    {
        self.cost
    }
}

/// Tells whether the node is a candidate.
pub fn is_candidate(instance: &Instance, k: u32) -> bool
    ensures { IsTrue result ↔ Contains instance.now.candidates k }
{
    instance.candidates().contains(&k)
}

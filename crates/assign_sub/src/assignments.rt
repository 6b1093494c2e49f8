//! The cost of a hub set, with the route of each commodity.

ghost use Rattle.std.specs.Prelude.{◌≡◌, ◌<◌, ◌≤◌, [], None, length, slice_index, IfOk, pos};
ghost use Rattle.hub_spec.specs.Limits.{most_cost};
ghost use Rattle.hub_spec.specs.Problem.{route_cost, IsProblem};
ghost use Rattle.hub_spec.specs.Plans.{IsHubSet, IsLeastRoute, IsSetCost, plan_cost};
ghost use Rattle.hub_model.specs.Amounts.{natural};
ghost use Rattle.hub_model.specs.Assignments.{AreLeastRoutes, plan_of};
ghost use Rattle.leg_duals.specs.StopLegs.{AreLegsOf, AreFirstLegsOf};

use crate::limited::assign_limited;
use hub_model::{HubSet, Instance, signed};
use leg_duals::{FirstLegs, SetLegs};
use std::alloc::{AllocError, Global};
use unit_duals::Hops;

/// The cost of a hub set, in 10^-12, and for each commodity in order the first and last hub of its route.
#[derive(Drop)]
pub struct Assignment {
    pub cost: i128,
    pub routes: Vec<(u32, u32)>,
}

/// The first and the last hub of a commodity's route, and what the route costs, in 10^-12.
#[derive(Clone, Copy)]
pub(crate) struct PricedRoute {
    pub first: u32,
    pub last: u32,
    pub cost: u128,
}

/// The cost of the hub set, and the least route of each commodity. Ties go to the smallest first hub, then to the
/// smallest last hub.
pub fn assign(alloc: Global, instance: &Instance, set: &HubSet) -> Result<Assignment, AllocError>
    requires { IsHubSet instance.now set.now }
    ensures routes { IfOk result (λ a. AreLeastRoutes instance.now set.now a.routes.items) }
    ensures cost { IfOk result (λ a. a.cost ≡ pos (plan_cost instance.now (plan_of set.now a.routes.items))) }
    ensures set_cost { IfOk result (λ a. IsSetCost instance.now set.now (natural a.cost)) }
{
    assign_to(alloc, instance, set.members())
}

fn assign_to(alloc: Global, instance: &Instance, hubs: &[u32]) -> Result<Assignment, AllocError>
    requires { IsHubSet instance.now hubs.now }
    ensures routes { IfOk result (λ a. AreLeastRoutes instance.now hubs.now a.routes.items) }
    ensures cost { IfOk result (λ a. a.cost ≡ pos (plan_cost instance.now (plan_of hubs.now a.routes.items))) }
    ensures set_cost { IfOk result (λ a. IsSetCost instance.now hubs.now (natural a.cost)) }
{
    match instance.length_limit() {
        None => assign_any_length(alloc, instance, hubs),
        Some(_) => assign_limited(alloc, instance, hubs),
    }
}

/// The same where the length of routes is not limited.
fn assign_any_length(
    alloc: Global,
    instance: &Instance,
    hubs: &[u32],
) -> Result<Assignment, AllocError>
    requires set { IsHubSet instance.now hubs.now }
    requires any { instance.now.longest ≡ None }
    ensures routes { IfOk result (λ a. AreLeastRoutes instance.now hubs.now a.routes.items) }
    ensures cost { IfOk result (λ a. a.cost ≡ pos (plan_cost instance.now (plan_of hubs.now a.routes.items))) }
    ensures set_cost { IfOk result (λ a. IsSetCost instance.now hubs.now (natural a.cost)) }
{
    let n = instance.size();
    let room = n as usize;
    let hops = hops_of(alloc, instance, hubs)?;
    let mut first = FirstLegs::new(alloc, room)?;
    let mut routes = Vec::with_capacity(alloc, room * room)?;
    let mut cost = instance.opening_cost(hubs);
    for i in 0..n {
        first.fill(instance, hubs, &[], i);
        for j in 0..n {
            let route = route_of(instance, hubs, &hops, first.as_slice(), i, j);
            cost += route.cost;
            routes.push((route.first, route.last))?;
        }
    }
    Ok(Assignment {
        cost: signed(cost),
        routes,
    })
}

/// The best last hub for each first hub and each node as a destination.
fn hops_of(alloc: Global, instance: &Instance, hubs: &[u32]) -> Result<Hops, AllocError>
    requires { IsHubSet instance.now hubs.now }
    ensures legs { IfOk result (λ h. AreLegsOf instance.now hubs.now [] 0 h.legs) }
    ensures size { IfOk result (λ h. h.legs.size ≡ instance.now.size) }
{
    let n = instance.size();
    let room = n as usize;
    let mut legs = SetLegs::new(alloc, room)?;
    let mut hops = Hops::new(alloc, room)?;
    legs.fill(instance, hubs, &[], 0, n);
    hops.fill(&legs.legs());
    Ok(hops)
}

/// The least route of the commodity from `i` to `j`. Where there is no flow, it is the first hub twice.
fn route_of(
    instance: &Instance,
    hubs: &[u32],
    hops: &Hops,
    first: &[u64],
    i: u32,
    j: u32,
) -> PricedRoute
    requires problem { IsProblem instance.now }
    requires set { IsHubSet instance.now hubs.now }
    requires any { instance.now.longest ≡ None }
    requires hops { AreLegsOf instance.now hubs.now [] 0 hops.now.legs }
    requires first { AreFirstLegsOf instance.now hubs.now [] i first.now }
    requires size { hops.now.legs.size ≡ instance.now.size }
    requires from { i < instance.now.size }
    requires to { j < instance.now.size }
    ensures least { IsLeastRoute instance.now hubs.now (i, j) (result.first, result.last) }
    ensures cost { result.cost ≡ route_cost instance.now i j result.first result.last }
{
    let flow = instance.flow_between(i, j);
    if flow == 0 {
        return route_without_flow(hubs);
    }
    let route = hops.route(first, j as usize);
    PricedRoute {
        first: hubs[route.first],
        last: hubs[route.last],
        cost: flow as u128 * route.length as u128,
    }
}

/// The route of a commodity that has no flow: the first hub twice.
pub(crate) fn route_without_flow(hubs: &[u32]) -> PricedRoute
    requires { 1 ≤ length hubs.now }
    ensures { result ≡ record { first = slice_index hubs.now 0; last = slice_index hubs.now 0; cost = 0 } }
{
    PricedRoute {
        first: hubs[0],
        last: hubs[0],
        cost: 0,
    }
}

//! The cost of a hub set where the length of routes is limited.

ghost use Rattle.std.specs.Prelude.{◌≡◌, ◌<◌, ◌≤◌, IfOk, pos};
ghost use Rattle.hub_spec.specs.Limits.{most_cost};
ghost use Rattle.hub_spec.specs.Problem.{route_cost, IsProblem};
ghost use Rattle.hub_spec.specs.Plans.{IsHubSet, IsLeastRoute, IsSetCost, plan_cost};
ghost use Rattle.hub_model.specs.Amounts.{natural};
ghost use Rattle.hub_model.specs.Assignments.{AreLeastRoutes, plan_of};

use crate::Assignment;
use crate::assignments::{PricedRoute, route_without_flow};
use hub_model::{Instance, signed};
use leg_duals::least_route;
use std::alloc::{AllocError, Global};

/// The cost of the hubs, and the least route of each commodity, of those that are allowed.
pub(crate) fn assign_limited(
    alloc: Global,
    instance: &Instance,
    hubs: &[u32],
) -> Result<Assignment, AllocError>
    requires { IsHubSet instance.now hubs.now }
    ensures routes { IfOk result (λ a. AreLeastRoutes instance.now hubs.now a.routes.items) }
    ensures cost { IfOk result (λ a. a.cost ≡ pos (plan_cost instance.now (plan_of hubs.now a.routes.items))) }
    ensures set_cost { IfOk result (λ a. IsSetCost instance.now hubs.now (natural a.cost)) }
{
    let n = instance.size();
    let room = n as usize;
    let mut routes = Vec::with_capacity(alloc, room * room)?;
    let mut cost = instance.opening_cost(hubs);
    for i in 0..n {
        for j in 0..n {
            let route = limited_route(instance, hubs, i, j);
            cost += route.cost;
            routes.push((route.first, route.last))?;
        }
    }
    Ok(Assignment {
        cost: signed(cost),
        routes,
    })
}

/// The least cost of a plan with just these hubs, in 10^-12. It takes no memory.
pub(crate) fn cost_of_limited(instance: &Instance, hubs: &[u32]) -> u128
    requires { IsHubSet instance.now hubs.now }
    ensures value { IsSetCost instance.now hubs.now result }
    ensures limit { result ≤ most_cost }
{
    let n = instance.size();
    let mut total = instance.opening_cost(hubs);
    for i in 0..n {
        for j in 0..n {
            total += limited_route(instance, hubs, i, j).cost;
        }
    }
    total
}

/// The least route of the commodity from `i` to `j`, of those that are allowed. Where there is no flow, it is the first
/// hub twice.
fn limited_route(instance: &Instance, hubs: &[u32], i: u32, j: u32) -> PricedRoute
    requires problem { IsProblem instance.now }
    requires set { IsHubSet instance.now hubs.now }
    requires from { i < instance.now.size }
    requires to { j < instance.now.size }
    ensures least { IsLeastRoute instance.now hubs.now (i, j) (result.first, result.last) }
    ensures cost { result.cost ≡ route_cost instance.now i j result.first result.last }
{
    let flow = instance.flow_between(i, j);
    if flow == 0 {
        return route_without_flow(hubs);
    }
    let route = least_route(instance, hubs, i, j);
    PricedRoute {
        first: route.first,
        last: route.last,
        cost: flow as u128 * route.length as u128,
    }
}

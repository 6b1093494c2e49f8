//! The cost of a hub set, with the route of each commodity.

ghost use Rattle.std.specs.Prelude.{◌≡◌, IfOk, pos};
ghost use Rattle.hub_spec.specs.Plans.{IsHubSet, IsSetCost, plan_cost};
ghost use Rattle.hub_model.specs.Amounts.{natural};
ghost use Rattle.hub_model.specs.Assignments.{AreLeastRoutes, plan_of};

use hub_model::{HubSet, Instance, least_route, signed};
use std::alloc::{AllocError, Global};

/// The cost of a hub set, in 10^-12, and for each commodity in order the first and last hub of its route.
#[derive(Debug, Drop)]
pub struct Assignment {
    pub cost: i128,
    pub routes: Vec<(u32, u32)>,
}

/// The cost of the hub set, and the least route of each commodity.
pub fn assign(alloc: Global, instance: &Instance, set: &HubSet) -> Result<Assignment, AllocError>
    requires { IsHubSet instance.now set.now }
    ensures routes { IfOk result (λ a. AreLeastRoutes instance.now set.now a.routes.items) }
    ensures cost { IfOk result (λ a. a.cost ≡ pos (plan_cost instance.now (plan_of set.now a.routes.items))) }
    ensures set_cost { IfOk result (λ a. IsSetCost instance.now set.now (natural a.cost)) }
{
    assign_to(alloc, instance, set.members())
}

pub(crate) fn assign_to(
    alloc: Global,
    instance: &Instance,
    hubs: &[u32],
) -> Result<Assignment, AllocError>
    requires { IsHubSet instance.now hubs.now }
    ensures routes { IfOk result (λ a. AreLeastRoutes instance.now hubs.now a.routes.items) }
    ensures cost { IfOk result (λ a. a.cost ≡ pos (plan_cost instance.now (plan_of hubs.now a.routes.items))) }
    ensures set_cost { IfOk result (λ a. IsSetCost instance.now hubs.now (natural a.cost)) }
{
    let n = instance.size();
    let mut cost = instance.opening_cost(hubs);
    let mut routes = Vec::new(alloc);
    for i in 0..n {
        for j in 0..n {
            let route = least_route(instance, hubs, i, j);
            cost += route.cost;
            routes.push((route.first, route.last))?;
        }
    }
    Ok(Assignment {
        cost: signed(cost),
        routes,
    })
}

/// The least cost of a plan with exactly these hubs, in 10^-12.
pub fn set_cost(instance: &Instance, hubs: &[u32]) -> u128
    requires { IsHubSet instance.now hubs.now }
    ensures { IsSetCost instance.now hubs.now result }
{
    let n = instance.size();
    let mut total = instance.opening_cost(hubs);
    for i in 0..n {
        for j in 0..n {
            total += least_route(instance, hubs, i, j).cost;
        }
    }
    total
}

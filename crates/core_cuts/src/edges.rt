//! The edges of a commodity, and their costs.

ghost use Rattle.std.specs.Prelude.{◌≡◌, ◌+◌, ◌*◌, ◌/◌, ◌^◌, ◌<◌, ◌≤◌, ℕ, None, map, pos, true, false, All, IfOk, IfSome};
ghost use Rattle.hub_spec.specs.Problem.{flow};
ghost use Rattle.hub_spec.specs.Edges.{least_cost};
ghost use Rattle.hub_spec.specs.Plans.{IsHubSet};
ghost use Rattle.core_spec.specs.CoreCuts.{pair_cost};
ghost use Rattle.core_cuts.specs.Ahead.{IsAnyLength};
ghost use Rattle.core_cuts.specs.CoreTables.{is_needed, edge_right};
ghost use Rattle.core_cuts.specs.Bodies.{most_unit};

use hub_model::{Instance, least_route};
use std::alloc::{AllocError, Global};

/// The commodity from `i` to `j`.
#[derive(Clone, Copy)]
pub(crate) struct CoreCommodity<'a> {
    pub(crate) instance: &'a Instance,
    pub(crate) i: u32,
    pub(crate) j: u32,
}

/// Each node as a single hub.
pub(crate) fn single_hubs(alloc: Global, nodes: &[u32]) -> Result<Vec<(u32, u32)>, AllocError>
    ensures { IfOk result (λ edges. edges.items ≡ map (λ k. (k, k)) nodes.now) }
{
    nodes.iter().map(|k| (*k, *k)).collect(alloc)
}

/// What each node costs the commodity as a single hub, in 10^-12.
pub(crate) fn single_costs(
    alloc: Global,
    instance: &Instance,
    i: u32,
    j: u32,
    nodes: &[u32],
) -> Result<Vec<u128>, AllocError>
    requires any_length { instance.now.longest ≡ None }
    requires from { i < instance.now.size }
    requires to { j < instance.now.size }
    requires nodes { All (λ k. k < instance.now.size) nodes.now }
    ensures { IfOk result (λ costs. costs.items ≡ map (λ k. pair_cost instance.now (i, j) k k) nodes.now) }
{
    let mut costs = Vec::with_capacity(alloc, nodes.len())?;
    for k in nodes {
        costs.push(single_cost(instance, i, j, *k))?;
    }
    Ok(costs)
}

/// What the node costs the commodity as a single hub, in 10^-12.
fn single_cost(instance: &Instance, i: u32, j: u32, k: u32) -> u128
    requires any_length { instance.now.longest ≡ None }
    requires from { i < instance.now.size }
    requires to { j < instance.now.size }
    requires node { k < instance.now.size }
    ensures { result ≡ pair_cost instance.now (i, j) k k }
{
    instance.cost_of_route(i, j, k, k)
}

/// What the hub edge of `k` and `m` costs by unit of flow, if it is needed: if it costs less than each of its single hubs.
pub(crate) fn needed_right(
    commodity: &CoreCommodity<'_>,
    k: u32,
    m: u32,
    at_k: u128,
    at_m: u128,
) -> Option<u64>
    requires commodity { IsAnyLength commodity.now }
    requires first { k < commodity.now.instance.now.size }
    requires last { m < commodity.now.instance.now.size }
    requires at_k { let c = commodity.now in at_k ≡ pair_cost c.instance.now (c.i, c.j) k k }
    requires at_m { let c = commodity.now in at_m ≡ pair_cost c.instance.now (c.i, c.j) m m }
    ensures needed { let c = commodity.now in IfSome result (λ right. is_needed c.instance.now (c.i, c.j) (k, m) ≡ true) }
    ensures value { let c = commodity.now in IfSome result (λ right. right ≡ edge_right c.instance.now (c.i, c.j) (k, m)) }
    ensures limit { IfSome result (λ right. right ≤ most_unit) }
    ensures none { let c = commodity.now in result ≡ None → is_needed c.instance.now (c.i, c.j) (k, m) ≡ false }
{
    let CoreCommodity { instance, i, j } = *commodity;
    let _ = instance.size();
    let cost = pair_cost(instance, i, j, k, m);
    if cost < at_k && cost < at_m {
        return Some(by_unit(cost, instance.flow_between(i, j)));
    }
    None
}

/// What the hub edge of `k` and `m` costs the commodity, in its cheaper direction, in 10^-12.
#[tactic(auto, using(core_spec::proofs::EdgeCosts::pair_cost_is))]
fn pair_cost(instance: &Instance, i: u32, j: u32, k: u32, m: u32) -> u128
    requires any_length { instance.now.longest ≡ None }
    requires from { i < instance.now.size }
    requires to { j < instance.now.size }
    requires first { k < instance.now.size }
    requires last { m < instance.now.size }
    ensures { result ≡ pair_cost instance.now (i, j) k m }
{
    instance
        .cost_of_route(i, j, k, m)
        .min(instance.cost_of_route(i, j, m, k))
}

/// What these costs are by unit of flow, in 10^-6.
pub(crate) fn unit_costs(
    alloc: Global,
    costs: &[u128],
    carried: u64,
) -> Result<Vec<i64>, AllocError>
    requires { All (λ cost. cost / carried ≤ most_unit) costs.now }
    ensures { IfOk result (λ rights. rights.items ≡ map (λ cost. pos (cost / carried)) costs.now) }
{
    let mut rights = Vec::with_capacity(alloc, costs.len())?;
    for cost in costs {
        rights.push(by_unit(*cost, carried) as i64)?;
    }
    Ok(rights)
}

/// What the way costs by unit of flow; 0 where nothing flows.
pub(crate) fn edge_right(instance: &Instance, i: u32, j: u32, k: u32, m: u32) -> u64
    requires any_length { instance.now.longest ≡ None }
    requires from { i < instance.now.size }
    requires to { j < instance.now.size }
    requires first { k < instance.now.size }
    requires last { m < instance.now.size }
    ensures value { result ≡ edge_right instance.now (i, j) (k, m) }
    ensures limit { result ≤ most_unit }
{
    let _ = instance.size();
    let cost = pair_cost(instance, i, j, k, m);
    by_unit(cost, instance.flow_between(i, j))
}

/// What the least route through the hubs costs by unit of flow; 0 where nothing flows.
pub(crate) fn least_right(instance: &Instance, i: u32, j: u32, hubs: &[u32]) -> u64
    requires any_length { instance.now.longest ≡ None }
    requires from { i < instance.now.size }
    requires to { j < instance.now.size }
    requires set { IsHubSet instance.now hubs.now }
    ensures value { result ≡ least_cost instance.now hubs.now (i, j) / flow instance.now i j }
    ensures limit { result ≤ most_unit }
{
    let _ = instance.size();
    let route = least_route(instance, hubs, i, j);
    by_unit(route.cost, instance.flow_between(i, j))
}

/// The cost over the flow; 0 where nothing flows. A cost of 64 bits is divided as such, which takes less time.
fn by_unit(cost: u128, carried: u64) -> u64
    requires { cost / carried ≤ most_unit }
    ensures { result ≡ cost / carried }
{
    if carried == 0 {
        return 0;
    }
    if cost <= u64::MAX as u128 {
        return cost as u64 / carried;
    }
    (cost / carried as u128) as u64
}

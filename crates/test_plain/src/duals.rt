//! The minimal dual of a commodity.

ghost use Rattle.std.specs.Prelude.{◌≡◌, ◌<◌, length, slice_index, All, IfOk};
ghost use Rattle.hub_spec.specs.Problem.{IsProblem};
ghost use Rattle.hub_spec.specs.Plans.{IsHubSet};
ghost use Rattle.hub_spec.specs.Separation.{IsOrder, IsMinimalDual, below_price, asked_value, minimal_dual};
ghost use Rattle.hub_model.specs.Values.{AreInTurn};

use crate::ways::cost_of_edge;
use hub_model::{Dual, HubSet, Instance, cost_of_way, least_route, listed_dual};
use std::alloc::{AllocError, Global};

/// The minimal dual of the commodity from `i` to `j`. Its price is the cost of its least route through the hubs. Each
/// candidate of the order, one after another, gets the least value that is feasible. The order has all candidates
/// outside the hubs.
pub fn minimal_dual(
    alloc: Global,
    instance: &Instance,
    i: u32,
    j: u32,
    hubs: &HubSet,
    order: &[u32],
) -> Result<Dual, AllocError>
    requires from { i < instance.now.size }
    requires to { j < instance.now.size }
    requires hubs { IsHubSet instance.now hubs.now }
    requires order { IsOrder instance.now hubs.now order.now }
    ensures minimal { IfOk result (λ d. IsMinimalDual instance.now hubs.now order.now (i, j) d) }
    ensures is { IfOk result (λ d. d ≡ minimal_dual instance.now hubs.now order.now (i, j)) }
{
    let mut values = vec![in alloc; 0; instance.size() as usize]?;
    let price = least_route(instance, hubs.members(), i, j).cost;
    set_values(instance, i, j, price, hubs.members(), order, &mut values);
    listed_dual(alloc, instance, price, &values)
}

/// Gives each node of the order, in its turn, the least value that it may have, where no node has one yet.
fn set_values(
    instance: &Instance,
    i: u32,
    j: u32,
    price: u128,
    hubs: &[u32],
    order: &[u32],
    values: &mut [u128],
)
    requires problem { IsProblem instance.now }
    requires from { i < instance.now.size }
    requires to { j < instance.now.size }
    requires set { IsHubSet instance.now hubs.now }
    requires order { IsOrder instance.now hubs.now order.now }
    requires by_node { length values.old ≡ instance.now.size }
    requires none { All (λ v. v ≡ 0) values.old }
    ensures { AreInTurn instance.now hubs.now order.now (i, j) price values.new }
{
    for t in 0..order.len() {
        let k = order[t];
        values[k as usize] = asked_value(instance, i, j, price, hubs, &order[..t], values, k);
    }
}

/// The least value that `k` may have, once the earlier nodes have theirs.
fn asked_value(
    instance: &Instance,
    i: u32,
    j: u32,
    price: u128,
    hubs: &[u32],
    earlier: &[u32],
    values: &[u128],
    k: u32,
) -> u128
    requires from { i < instance.now.size }
    requires to { j < instance.now.size }
    requires node { k < instance.now.size }
    requires hubs { All (λ m. m < instance.now.size) hubs.now }
    requires earlier { All (λ m. m < instance.now.size) earlier.now }
    requires by_node { length values.now ≡ instance.now.size }
    ensures { result ≡ asked_value instance.now hubs.now (i, j) price (slice_index values.now) earlier.now k }
{
    let mut most = below_price(price, cost_of_way(instance, i, j, k, k));
    'by_hubs: for m in hubs {
        let asked = below_price(price, cost_of_edge(instance, i, j, k, *m));
        most = most.max(asked);
    }
    'by_earlier: for m in earlier {
        let edge = below_price(price, cost_of_edge(instance, i, j, k, *m));
        let asked = edge.saturating_sub(values[*m as usize]);
        most = most.max(asked);
    }
    most
}

/// What a cost is below the price; where there is none it asks nothing.
fn below_price(price: u128, cost: Option<u128>) -> u128
    ensures { result ≡ below_price price cost }
{
    match cost {
        Some(cost) => price.saturating_sub(cost),
        None => 0,
    }
}

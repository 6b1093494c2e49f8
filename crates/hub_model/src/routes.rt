//! The least route of a commodity through hubs.

ghost use Rattle.std.specs.Prelude.{◌≡◌, ◌<◌, ◌≤◌, All, ◌⊎◌, Some, IfSome};
ghost use Rattle.hub_spec.specs.Limits.{most_cost};
ghost use Rattle.hub_spec.specs.Problem.{route_cost};
ghost use Rattle.hub_spec.specs.Edges.{IsLeastCost};
ghost use Rattle.hub_spec.specs.Plans.{IsHubSet, IsLeastRoute, IsNotAfter};
ghost use Rattle.hub_model.specs.FirstRoutes.{hubs_of, IsCheapest};

use crate::Instance;

/// The first and last hub of a commodity's route, and its cost, in 10^-12.
#[derive(Clone, Copy, Debug, PartialEq, Eq)]
pub struct Route {
    pub first: u32,
    pub last: u32,
    pub cost: u128,
}

/// The cheapest allowed route of the commodity from `i` to `j` through these hubs. Ties go to the smallest first hub,
/// then to the smallest last hub.
pub fn least_route(instance: &Instance, hubs: &[u32], i: u32, j: u32) -> Route
    requires hubs { IsHubSet instance.now hubs.now }
    requires from { i < instance.now.size }
    requires to { j < instance.now.size }
    ensures least { IsLeastRoute instance.now hubs.now (i, j) (result.first, result.last) }
    ensures cost { result.cost ≡ route_cost instance.now i j result.first result.last }
    ensures price { IsLeastCost instance.now hubs.now (i, j) result.cost }
    ensures limit { result.cost ≤ most_cost }
{
    let _ = instance.size();
    cheapest_route(instance, hubs, i, j).unwrap()
}

/// The cheapest route that is allowed, if one is.
fn cheapest_route(instance: &Instance, hubs: &[u32], i: u32, j: u32) -> Option<Route>
    requires hubs { All (λ k. k < instance.now.size) hubs.now }
    requires from { i < instance.now.size }
    requires to { j < instance.now.size }
    ensures { IsCheapest instance.now hubs.now (i, j) result }
{
    let mut best: Option<Route> = None;
    for first in hubs {
        for last in hubs {
            if instance.allowed(i, j, *first, *last) {
                best = Some(best_of(best, route_by(instance, i, j, *first, *last)));
            }
        }
    }
    best
}

fn route_by(instance: &Instance, i: u32, j: u32, first: u32, last: u32) -> Route
    requires from { i < instance.now.size }
    requires to { j < instance.now.size }
    requires first { first < instance.now.size }
    requires last { last < instance.now.size }
    ensures first { result.first ≡ first }
    ensures last { result.last ≡ last }
    ensures cost { result.cost ≡ route_cost instance.now i j first last }
{
    let cost = instance.cost_of_route(i, j, first, last);
    Route { first, last, cost }
}

/// The better of the best route so far, if there is one, and this one.
fn best_of(best: Option<Route>, this: Route) -> Route
    ensures one_of { (Some result ≡ best) ⊎ (result ≡ this) }
    ensures not_after_best { IfSome best (λ b. IsNotAfter result.cost (hubs_of result) b.cost (hubs_of b)) }
    ensures not_after_this { IsNotAfter result.cost (hubs_of result) this.cost (hubs_of this) }
{
    match best {
        Some(best) => better_of(best, this),
        None => this,
    }
}

/// The cheaper of two routes, or the first by its hubs where they cost the same.
fn better_of(a: Route, b: Route) -> Route
    ensures one_of { (result ≡ a) ⊎ (result ≡ b) }
    ensures not_after_a { IsNotAfter result.cost (result.first, result.last) a.cost (a.first, a.last) }
    ensures not_after_b { IsNotAfter result.cost (result.first, result.last) b.cost (b.first, b.last) }
{
    if b.cost < a.cost {
        return b;
    }
    if b.cost == a.cost && b.first < a.first {
        return b;
    }
    if b.cost == a.cost && b.first == a.first && b.last < a.last {
        return b;
    }
    a
}

//! The least allowed route of a commodity.

ghost use Rattle.std.specs.Prelude.{◌≡◌, ◌+◌, ◌*◌, ◌<◌, ◌≤◌, ◌⊎◌, All, Some, IfSome, IsTrue};
ghost use Rattle.hub_spec.specs.Problem.{flow, distance, route_cost, IsProblem};
ghost use Rattle.hub_spec.specs.Plans.{IsHubSet, IsLeastRoute, IsNotAfter};
ghost use Rattle.unit_duals.specs.Limits.{most_leg};
ghost use Rattle.leg_duals.specs.Routes.{unit_length, hubs_of, IsShortest, IsLongerThan};

use hub_model::Instance;

/// The first and last hub of a route, and its length per unit of flow, in 10^-6.
#[derive(Clone, Copy)]
pub struct LimitedRoute {
    pub first: u32,
    pub last: u32,
    pub length: u64,
}

/// The least allowed route through these hubs of the commodity from `i` to `j`, which has flow. Ties go to the smallest
/// first hub, then to the smallest last hub.
pub fn least_route(instance: &Instance, hubs: &[u32], i: u32, j: u32) -> LimitedRoute
    requires problem { IsProblem instance.now }
    requires set { IsHubSet instance.now hubs.now }
    requires from { i < instance.now.size }
    requires to { j < instance.now.size }
    requires some { 1 ≤ flow instance.now i j }
    ensures least { IsLeastRoute instance.now hubs.now (i, j) (result.first, result.last) }
    ensures cost { flow instance.now i j * result.length ≡ route_cost instance.now i j result.first result.last }
{
    shortest_route(instance, hubs, i, j).unwrap()
}

/// The same, if a route is allowed.
fn shortest_route(instance: &Instance, hubs: &[u32], i: u32, j: u32) -> Option<LimitedRoute>
    requires hubs { All (λ k. k < instance.now.size) hubs.now }
    requires from { i < instance.now.size }
    requires to { j < instance.now.size }
    requires some { 1 ≤ flow instance.now i j }
    ensures { IsShortest instance.now hubs.now (i, j) result }
{
    let mut best: Option<LimitedRoute> = None;
    for first in hubs {
        if is_beyond(instance, i, *first, &best) {
            continue;
        }
        for last in hubs {
            if instance.allowed(i, j, *first, *last) {
                best = Some(best_of(best, route_by(instance, i, j, *first, *last)));
            }
        }
    }
    best
}

/// Tells whether the collection at this first hub alone is longer than the best route so far.
fn is_beyond(instance: &Instance, i: u32, first: u32, best: &Option<LimitedRoute>) -> bool
    requires from { i < instance.now.size }
    requires first { first < instance.now.size }
    ensures { IsTrue result → IsLongerThan (instance.now.collect * distance instance.now i first) best.now }
{
    match best {
        Some(best) => best.length < instance.collect() * instance.distance_between(i, first),
        None => false,
    }
}

/// The route by these hubs.
fn route_by(instance: &Instance, i: u32, j: u32, first: u32, last: u32) -> LimitedRoute
    requires from { i < instance.now.size }
    requires to { j < instance.now.size }
    requires first { first < instance.now.size }
    requires last { last < instance.now.size }
    ensures { result ≡ record { first = first; last = last; length = unit_length instance.now i j first last } }
{
    let collected = instance.collect() * instance.distance_between(i, first);
    let carried = instance.trunk() * instance.distance_between(first, last);
    let delivered = instance.deliver() * instance.distance_between(last, j);
    LimitedRoute {
        first,
        last,
        length: collected + carried + delivered,
    }
}

/// The better of the best route so far, if there is one, and this one.
fn best_of(best: Option<LimitedRoute>, this: LimitedRoute) -> LimitedRoute
    ensures one_of { (Some result ≡ best) ⊎ (result ≡ this) }
    ensures not_after_best { IfSome best (λ b. IsNotAfter result.length (hubs_of result) b.length (hubs_of b)) }
    ensures not_after_this { IsNotAfter result.length (hubs_of result) this.length (hubs_of this) }
{
    match best {
        Some(best) => better_of(best, this),
        None => this,
    }
}

/// The shorter of two routes, or the first by its hubs where they are as long.
fn better_of(a: LimitedRoute, b: LimitedRoute) -> LimitedRoute
    ensures one_of { (result ≡ a) ⊎ (result ≡ b) }
    ensures not_after_a { IsNotAfter result.length (result.first, result.last) a.length (a.first, a.last) }
    ensures not_after_b { IsNotAfter result.length (result.first, result.last) b.length (b.first, b.last) }
{
    if b.length < a.length {
        return b;
    }
    if b.length == a.length && b.first < a.first {
        return b;
    }
    if b.length == a.length && b.first == a.first && b.last < a.last {
        return b;
    }
    a
}

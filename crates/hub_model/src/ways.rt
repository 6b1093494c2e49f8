//! The cost of a commodity through two given hubs, where that route is allowed.

ghost use Rattle.std.specs.Prelude.{◌≡◌, ◌<◌, ◌≤◌, IfSome};
ghost use Rattle.hub_spec.specs.Limits.{most_cost};
ghost use Rattle.hub_spec.specs.Problem.{way_cost};

use crate::Instance;

/// The cost of the route from `i` to `j` through first hub `k` and last hub `m`, if it is allowed, in 10^-12.
pub fn cost_of_way(instance: &Instance, i: u32, j: u32, k: u32, m: u32) -> Option<u128>
    requires from { i < instance.now.size }
    requires to { j < instance.now.size }
    requires first { k < instance.now.size }
    requires last { m < instance.now.size }
    ensures value { result ≡ way_cost instance.now (i, j) k m }
    ensures limit { IfSome result (λ cost. cost ≤ most_cost) }
{
    if !instance.allowed(i, j, k, m) {
        return None;
    }
    Some(instance.cost_of_route(i, j, k, m))
}

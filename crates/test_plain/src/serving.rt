//! The commodities for which hubs are infeasible: those without an allowed route through them.

ghost use Rattle.std.specs.Prelude.{◌≡◌, ◌<◌, All};
ghost use Rattle.std.specs.List.{list_any};
ghost use Rattle.hub_spec.specs.Problem.{is_allowed};
ghost use Rattle.hub_spec.specs.Lacking.{serves, lacking};

use hub_model::Instance;

/// Origin and destination of the first commodity that has no allowed route through these hubs, if there is one.
pub fn lacking(instance: &Instance, hubs: &[u32]) -> Option<(u32, u32)>
    requires { All (λ k. k < instance.now.size) hubs.now }
    ensures { result ≡ lacking instance.now hubs.now }
{
    let n = instance.size();
    for i in 0..n {
        for j in 0..n {
            if !serves(instance, hubs, i, j) {
                return Some((i, j));
            }
        }
    }
    None
}

/// Tells whether the commodity from `i` to `j` has an allowed route through these hubs.
pub fn serves(instance: &Instance, hubs: &[u32], i: u32, j: u32) -> bool
    requires hubs { All (λ k. k < instance.now.size) hubs.now }
    requires from { i < instance.now.size }
    requires to { j < instance.now.size }
    ensures { result ≡ serves instance.now hubs.now (i, j) }
{
    for first in hubs {
        if serves_from(instance, hubs, i, j, *first) {
            return true;
        }
    }
    false
}

/// Tells whether it has one whose first hub is this.
fn serves_from(instance: &Instance, hubs: &[u32], i: u32, j: u32, first: u32) -> bool
    requires hubs { All (λ k. k < instance.now.size) hubs.now }
    requires from { i < instance.now.size }
    requires to { j < instance.now.size }
    requires first { first < instance.now.size }
    ensures { result ≡ list_any (is_allowed instance.now (i, j) first) hubs.now }
{
    for last in hubs {
        if instance.allowed(i, j, first, *last) {
            return true;
        }
    }
    false
}

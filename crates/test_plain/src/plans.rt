//! Which plans are plans of an instance.

ghost use Rattle.std.specs.Prelude.{◌<◌, ◌↔◌, IsTrue, All};
ghost use Rattle.std.specs.List.{AllZip};
ghost use Rattle.hub_spec.specs.Problem.{commodities};
ghost use Rattle.hub_spec.specs.Plans.{IsHubSet, IsRoute, IsPlan};

use crate::serving::lacking;
use hub_model::{Instance, Plan, is_among, is_candidate_set};

/// Tells whether this is a plan of the instance, whatever its number of hubs.
pub fn is_plan(instance: &Instance, plan: &Plan) -> bool
    ensures { IsTrue result ↔ IsPlan instance.now plan.now }
{
    is_hub_set(instance, plan.hubs()) && are_routes(instance, plan.hubs(), plan.routes())
}

/// Tells whether this is a hub set of the instance: candidates, ascending, at least one, and feasible for every
/// commodity.
pub fn is_hub_set(instance: &Instance, hubs: &[u32]) -> bool
    ensures { IsTrue result ↔ IsHubSet instance.now hubs.now }
{
    is_candidate_set(instance, hubs) && lacking(instance, hubs).is_none()
}

fn are_routes(instance: &Instance, hubs: &[u32], routes: &[(u32, u32)]) -> bool
    requires { IsHubSet instance.now hubs.now }
    ensures { IsTrue result ↔ AllZip (IsRoute instance.now hubs.now) (commodities instance.now.size) routes.now }
{
    let n = instance.size();
    if routes.len() != n as usize * n as usize {
        return false;
    }
    for i in 0..n {
        for j in 0..n {
            let (first, last) = routes[i as usize * n as usize + j as usize];
            if !is_route(instance, hubs, i, j, first, last) {
                return false;
            }
        }
    }
    true
}

/// Tells whether the commodity from `i` to `j` may go by way of these two hubs.
fn is_route(instance: &Instance, hubs: &[u32], i: u32, j: u32, first: u32, last: u32) -> bool
    requires hubs { All (λ k. k < instance.now.size) hubs.now }
    requires from { i < instance.now.size }
    requires to { j < instance.now.size }
    ensures { IsTrue result ↔ IsRoute instance.now hubs.now (i, j) (first, last) }
{
    is_among(hubs, first) && is_among(hubs, last) && instance.allowed(i, j, first, last)
}

//! The cost of a plan.

ghost use Rattle.std.specs.Prelude.{◌≡◌, ◌≤◌};
ghost use Rattle.std.specs.List.{AllZip};
ghost use Rattle.hub_spec.specs.Limits.{most_cost};
ghost use Rattle.hub_spec.specs.Problem.{commodities};
ghost use Rattle.hub_spec.specs.Plans.{IsHubSet, IsRoute, plan_cost};

use crate::Instance;

/// The cost of the plan with these hubs and routes, in 10^-12: fixed costs of the hubs plus costs of the routes.
pub fn plan_cost(instance: &Instance, hubs: &[u32], routes: &[(u32, u32)]) -> u128
    requires hubs { IsHubSet instance.now hubs.now }
    requires routes { AllZip (IsRoute instance.now hubs.now) (commodities instance.now.size) routes.now }
    ensures value { result ≡ plan_cost instance.now (record { hubs = hubs.now; routes = routes.now }) }
    ensures limit { result ≤ most_cost }
{
    let n = instance.size();
    let mut total = instance.opening_cost(hubs);
    for i in 0..n {
        for j in 0..n {
            let (first, last) = routes[i as usize * n as usize + j as usize];
            total += instance.cost_of_route(i, j, first, last);
        }
    }
    total
}

//! The cost of a plan's routes, leg by leg.

ghost use Rattle.std.specs.Prelude.{◌≡◌, ◌<◌};
ghost use Rattle.hub_spec.specs.Problem.{IsProblem};
ghost use Rattle.hub_spec.specs.Plans.{IsPlan};
ghost use Rattle.network_report.specs.Parts.{collection_leg, trunk_leg, delivery_leg, collection_cost, trunk_cost, delivery_cost};

use hub_model::{Instance, Plan};

/// The costs of routes by their legs, in 10^-12.
#[derive(Clone, Copy)]
pub(crate) struct FlowLegs {
    /// From the origins to the first hubs.
    pub(crate) collection: u128,
    /// From the first hubs to the last ones.
    pub(crate) trunk: u128,
    /// From the last hubs to the destinations.
    pub(crate) delivery: u128,
}

impl FlowLegs {
    /// The legs of all routes of a plan together.
    pub(crate) fn of_plan(instance: &Instance, plan: &Plan) -> FlowLegs
        requires { IsPlan instance.now plan.now }
        ensures collection { result.collection ≡ collection_cost instance.now plan.now }
        ensures trunk { result.trunk ≡ trunk_cost instance.now plan.now }
        ensures delivery { result.delivery ≡ delivery_cost instance.now plan.now }
    {
        let n = instance.size();
        let mut sum = FlowLegs {
            collection: 0,
            trunk: 0,
            delivery: 0,
        };
        for (t, route) in plan.routes().iter().enumerate() {
            let legs = FlowLegs::of_route(instance, t as u32 / n, t as u32 % n, *route);
            sum.collection += legs.collection;
            sum.trunk += legs.trunk;
            sum.delivery += legs.delivery;
        }
        sum
    }

    /// The legs of the route from `i` to `j` by way of these hubs.
    fn of_route(instance: &Instance, i: u32, j: u32, route: (u32, u32)) -> FlowLegs
        requires problem { IsProblem instance.now }
        requires from { i < instance.now.size }
        requires to { j < instance.now.size }
        requires first { route.0 < instance.now.size }
        requires last { route.1 < instance.now.size }
        ensures collection { result.collection ≡ collection_leg instance.now ((i, j), (route.0, route.1)) }
        ensures trunk { result.trunk ≡ trunk_leg instance.now ((i, j), (route.0, route.1)) }
        ensures delivery { result.delivery ≡ delivery_leg instance.now ((i, j), (route.0, route.1)) }
    {
        let (k, m) = route;
        let flow = instance.flow_between(i, j) as u128;
        let out = instance.collect() as u128 * instance.distance_between(i, k) as u128;
        let across = instance.trunk() as u128 * instance.distance_between(k, m) as u128;
        let back = instance.deliver() as u128 * instance.distance_between(m, j) as u128;
        FlowLegs {
            collection: flow * out,
            trunk: flow * across,
            delivery: flow * back,
        }
    }
}

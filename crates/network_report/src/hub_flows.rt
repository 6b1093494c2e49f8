//! The flow that each hub collects and delivers.

ghost use Rattle.std.specs.Prelude.{◌≡◌, ℕ, slice_index};
ghost use Rattle.hub_spec.specs.Problem.{IsProblem};
ghost use Rattle.hub_spec.specs.Plans.{IsPlan};
ghost use Rattle.network_report.specs.Parts.{collected_flow, delivered_flow};

use hub_model::{Instance, Plan};

/// The most hubs that there may be: as many as nodes.
pub(crate) const MOST_HUBS: usize = 200;

/// The flows of a plan by the hubs at their ends, in 10^-6, for each node.
#[derive(Clone, Copy)]
pub(crate) struct HubFlows {
    /// The flow of which the node is the first hub.
    pub(crate) collected: [u128; MOST_HUBS],
    /// The flow of which the node is the last hub.
    pub(crate) delivered: [u128; MOST_HUBS],
}

impl HubFlows {
    /// The flows of this plan.
    pub(crate) fn of_plan(instance: &Instance, plan: &Plan) -> HubFlows
        requires { IsPlan instance.now plan.now }
        ensures collected { (k : ℕ) → slice_index result.collected k ≡ collected_flow instance.now plan.now k }
        ensures delivered { (k : ℕ) → slice_index result.delivered k ≡ delivered_flow instance.now plan.now k }
        ensures problem { IsProblem instance.now }
    {
        let n = instance.size();
        let mut collected = [0; MOST_HUBS];
        let mut delivered = [0; MOST_HUBS];
        for (t, route) in plan.routes().iter().enumerate() {
            let flow = instance.flow_between(t as u32 / n, t as u32 % n) as u128;
            collected[route.0 as usize] += flow;
            delivered[route.1 as usize] += flow;
        }
        HubFlows {
            collected,
            delivered,
        }
    }
}

//! The costs of routes per unit of flow, in 10^-6.

ghost use Rattle.std.specs.Prelude.{◌≡◌, ◌*◌, ◌<◌, ◌≤◌, None, length, slice_index};
ghost use Rattle.hub_spec.specs.Problem.{flow, route_cost};
ghost use Rattle.hub_spec.specs.Edges.{least_cost};
ghost use Rattle.hub_spec.specs.Plans.{IsCandidateSet};
ghost use Rattle.core_spec.specs.CoreCuts.{pair_cost};
ghost use Rattle.core_spec.specs.MarkRanges.{most_taken};
ghost use Rattle.core_lines.specs.LineParts.{most_unit, IsLeastFrom};

use hub_model::Instance;

/// What the route from `i` to `j` by way of `k` first and `m` last costs by unit of flow.
#[tactic(auto, using(crate::proofs::LengthLimits::leg_limit), unfolding(hub_spec::specs::Problem::route_cost))]
fn route_unit(instance: &Instance, i: u32, j: u32, k: u32, m: u32) -> u64
    requires from { i < instance.now.size }
    requires to { j < instance.now.size }
    requires first { k < instance.now.size }
    requires last { m < instance.now.size }
    ensures cost { flow instance.now i j * result ≡ route_cost instance.now i j k m }
    ensures limit { result ≤ most_unit }
{
    let collected = instance.collect() * instance.distance_between(i, k);
    let carried = instance.trunk() * instance.distance_between(k, m);
    let delivered = instance.deliver() * instance.distance_between(m, j);
    collected + carried + delivered
}

/// What the hub edge of `k` and `m` costs by unit of flow, in its cheaper direction, where the length of routes is not
/// limited.
fn pair_unit(instance: &Instance, i: u32, j: u32, k: u32, m: u32) -> u64
    requires from { i < instance.now.size }
    requires to { j < instance.now.size }
    requires first { k < instance.now.size }
    requires last { m < instance.now.size }
    ensures cost { instance.now.longest ≡ None → flow instance.now i j * result ≡ pair_cost instance.now (i, j) k m }
    ensures limit { result ≤ most_unit }
{
    route_unit(instance, i, j, k, m).min(route_unit(instance, i, j, m, k))
}

/// What the hub edge of `k` and `m` costs by unit of flow, taken so often.
pub(crate) fn way_units(instance: &Instance, i: u32, j: u32, k: u32, m: u32, often: u64) -> u128
    requires from { i < instance.now.size }
    requires to { j < instance.now.size }
    requires first { k < instance.now.size }
    requires last { m < instance.now.size }
    requires often { often ≤ most_taken }
    ensures cost { instance.now.longest ≡ None
        → flow instance.now i j * result ≡ often * pair_cost instance.now (i, j) k m }
    ensures limit { result ≤ most_taken * most_unit }
{
    often as u128 * pair_unit(instance, i, j, k, m) as u128
}

/// What the least route through the hubs costs by unit of flow, where the length of routes is not limited.
pub(crate) fn least_unit(instance: &Instance, hubs: &[u32], i: u32, j: u32) -> u64
    requires any_length { instance.now.longest ≡ None }
    requires from { i < instance.now.size }
    requires to { j < instance.now.size }
    requires set { IsCandidateSet instance.now hubs.now }
    ensures cost { flow instance.now i j * result ≡ least_cost instance.now hubs.now (i, j) }
    ensures limit { result ≤ most_unit }
{
    let mut least = least_from(instance, hubs, i, j, hub(instance, hubs, 0));
    for x in 1..hubs.len() {
        least = least.min(least_from(instance, hubs, i, j, hub(instance, hubs, x)));
    }
    least
}

/// What the least route with `k` as the first hub costs by unit of flow.
fn least_from(instance: &Instance, hubs: &[u32], i: u32, j: u32, k: u32) -> u64
    requires from { i < instance.now.size }
    requires to { j < instance.now.size }
    requires set { IsCandidateSet instance.now hubs.now }
    requires first { k < instance.now.size }
    ensures least { IsLeastFrom instance.now (i, j) k hubs.now result }
    ensures limit { result ≤ most_unit }
{
    let mut least = route_unit(instance, i, j, k, hub(instance, hubs, 0));
    for x in 1..hubs.len() {
        least = least.min(route_unit(instance, i, j, k, hub(instance, hubs, x)));
    }
    least
}

/// The hub at this place of the list.
#[tactic(auto, using(crate::proofs::LengthLimits::hub_is_node))]
fn hub(instance: &Instance, hubs: &[u32], x: usize) -> u32
    requires set { IsCandidateSet instance.now hubs.now }
    requires within { x < length hubs.now }
    ensures value { result ≡ slice_index hubs.now x }
    ensures node { result < instance.now.size }
{
    let _ = instance.size();
    hubs[x]
}

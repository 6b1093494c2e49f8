//! Flows, and lengths multiplied by them.

ghost use Rattle.std.specs.Prelude.{◌≡◌, ◌≢◌, ℕ, ◌+◌, ◌*◌, ◌^◌, ◌<◌, ◌≤◌, length, slice_index, All};
ghost use Rattle.hub_spec.specs.Limits.{most_flow};
ghost use Rattle.hub_spec.specs.Problem.{flow};
ghost use Rattle.unit_duals.specs.Cells.{cell};
ghost use Rattle.pareto_cuts.specs.AddedRows.{weighted_sum, row_sum, AreRowsAdded};

use hub_model::Instance;
use unit_duals::row;

/// The flows from `i` to `size` destinations from `start` on, in 10^-6.
#[tactic(auto, unfolding(hub_spec::specs::Problem::flow))]
pub(crate) fn flows_from(instance: &Instance, i: u32, start: u32, size: usize) -> &[u64]
    requires origin { i < instance.now.size }
    requires destinations { start + size ≤ instance.now.size }
    ensures long { length result.now ≡ size }
    ensures each { (j : ℕ) → j < size → slice_index result.now j ≡ flow instance.now i (start + j) }
    ensures limit { All (λ w. w ≤ most_flow) result.now }
{
    let at = i as usize * instance.size() as usize + start as usize;
    &instance.flows()[at..at + size]
}

/// The sum of lengths by unit of flow, each times its flow, in 10^-12.
pub(crate) fn weighted(flows: &[u64], lengths: &[u64]) -> u128
    requires long { length lengths.now ≡ length flows.now }
    requires few { length flows.now ≤ 256 }
    requires limit { All (λ w. w ≤ most_flow) flows.now }
    ensures value { result ≡ weighted_sum flows.now (slice_index lengths.now) }
    ensures limit { result ≤ 2 ^ 116 }
{
    let mut sum = 0;
    for j in 0..flows.len() {
        sum += flows[j] as u128 * lengths[j] as u128;
    }
    sum
}

/// Adds to the load of each node of the order the sum of its row of values, weighted by the flows.
pub(crate) fn add_rows(order: &[u32], flows: &[u64], values: &[u64], loads: &mut [u128])
    requires nodes { All (λ k. k < length loads.old) order.now }
    requires once { (s t : ℕ) → s < t → t < length order.now → slice_index order.now s ≢ slice_index order.now t }
    requires long { length values.now ≡ length order.now * length flows.now }
    requires few { length flows.now ≤ 256 }
    requires flow_limit { All (λ w. w ≤ most_flow) flows.now }
    requires load_limit { All (λ v. v ≤ 2 ^ 120) loads.old }
    ensures { AreRowsAdded order.now (length order.now) (row_sum flows.now values.now) loads.old loads.new }
{
    let size = flows.len();
    for t in 0..order.len() {
        let sum = weighted(flows, row(values, t, size));
        loads[order[t] as usize] += sum;
    }
}

/// Sets the value of each node of the order to the flow times its value in the column `j`.
pub(crate) fn set_column(
    order: &[u32],
    values: &[u64],
    size: usize,
    j: usize,
    flow: u64,
    by_node: &mut [u128],
)
    requires nodes { All (λ k. k < length by_node.old) order.now }
    requires once { (s t : ℕ) → s < t → t < length order.now → slice_index order.now s ≢ slice_index order.now t }
    requires long { length values.now ≡ length order.now * size }
    requires column { j < size }
    requires flow_limit { flow ≤ most_flow }
    requires none { All (λ v. v ≡ 0) by_node.old }
    ensures { AreRowsAdded order.now (length order.now) (λ t. flow * cell size values.now t j) by_node.old by_node.new }
{
    for t in 0..order.len() {
        by_node[order[t] as usize] = flow as u128 * values[t * size + j] as u128;
    }
}

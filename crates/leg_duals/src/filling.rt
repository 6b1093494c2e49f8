//! Rows of legs, from the instance's distances.

ghost use Rattle.std.specs.Prelude.{◌≡◌, ℕ, ◌+◌, ◌*◌, ◌<◌, ◌≤◌, length, slice_index, All, vec_len, vec_capacity};
ghost use Rattle.hub_spec.specs.Limits.{most_distance, most_factor};
ghost use Rattle.hub_spec.specs.Problem.{distance};
ghost use Rattle.unit_duals.specs.Limits.{most_leg};
ghost use Rattle.unit_duals.specs.Cells.{IsTable};
ghost use Rattle.unit_duals.specs.Raised.{IsRowSet};
ghost use Rattle.leg_duals.specs.StopLegs.{stop_node, AreFirstLegsOf};

use hub_model::Instance;

/// The stops: the places of an order, then the hubs.
#[derive(Clone, Copy)]
pub struct Stops<'a> {
    /// The hubs.
    pub hubs: &'a [u32],
    /// The nodes of the order.
    pub order: &'a [u32],
}

/// Gives the vector this length, within its room.
pub(crate) fn fit(items: &mut Vec<u64>, len: usize)
    requires { len ≤ vec_capacity items.old }
    ensures len { vec_len items.new ≡ len }
    ensures room { vec_capacity items.old ≤ vec_capacity items.new }
{
    // It succeeds, since the room was taken when the vector was made.
    let _ = items.resize(len, 0);
}

/// Sets the legs from stop to stop.
pub(crate) fn set_trunk(instance: &Instance, hubs: &[u32], order: &[u32], trunk: &mut [u64])
    requires hubs { All (λ k. k < instance.now.size) hubs.now }
    requires order { All (λ k. k < instance.now.size) order.now }
    requires long { length trunk.old ≡ (length order.now + length hubs.now) * (length order.now + length hubs.now) }
    ensures legs { let p = instance.now in let node = stop_node hubs.now order.now in
        let stops = length order.now + length hubs.now in
        IsTable stops (λ k m v. v ≡ p.trunk * distance p (node k) (node m)) trunk.new (length trunk.new) }
    ensures limit { All (λ d. d ≤ most_leg) trunk.new }
{
    let factor = instance.trunk();
    let stops = Stops { hubs, order };
    for k in 0..order.len() + hubs.len() {
        let from = node_of(hubs, order, k);
        set_row(instance, factor, from, &stops, trunk, k);
    }
}

/// Sets the legs from the stops to the destinations from `start` on.
pub(crate) fn set_last(
    instance: &Instance,
    hubs: &[u32],
    order: &[u32],
    start: u32,
    size: u32,
    last: &mut [u64],
)
    requires hubs { All (λ k. k < instance.now.size) hubs.now }
    requires order { All (λ k. k < instance.now.size) order.now }
    requires destinations { start + size ≤ instance.now.size }
    requires long { length last.old ≡ (length order.now + length hubs.now) * size }
    ensures legs { let p = instance.now in let node = stop_node hubs.now order.now in
        IsTable size (λ k j v. v ≡ p.deliver * distance p (node k) (start + j)) last.new (length last.new) }
    ensures limit { All (λ d. d ≤ most_leg) last.new }
{
    for k in 0..order.len() + hubs.len() {
        set_last_row(instance, node_of(hubs, order, k), start, size, last, k);
    }
}

/// Sets the legs from the origin to the stops.
pub(crate) fn set_first(instance: &Instance, hubs: &[u32], order: &[u32], i: u32, first: &mut [u64])
    requires hubs { All (λ k. k < instance.now.size) hubs.now }
    requires order { All (λ k. k < instance.now.size) order.now }
    requires origin { i < instance.now.size }
    requires long { length first.old ≡ length order.now + length hubs.now }
    ensures { AreFirstLegsOf instance.now hubs.now order.now i first.new }
{
    let stops = Stops { hubs, order };
    set_row(instance, instance.collect(), i, &stops, first, 0);
}

/// Sets row `t` of a table to what this factor makes of the distances from a node to the stops.
pub(crate) fn set_row(
    instance: &Instance,
    factor: u64,
    from: u32,
    stops: &Stops<'_>,
    table: &mut [u64],
    t: usize,
)
    requires factor { factor ≤ most_factor }
    requires from { from < instance.now.size }
    requires hubs { All (λ k. k < instance.now.size) stops.now.hubs.now }
    requires order { All (λ k. k < instance.now.size) stops.now.order.now }
    requires row { let n = length stops.now.order.now + length stops.now.hubs.now in t * n + n ≤ length table.old }
    ensures row { let n = length stops.now.order.now + length stops.now.hubs.now in
        let node = stop_node stops.now.hubs.now stops.now.order.now in
        IsRowSet n t n (λ m. factor * distance instance.now from (node m)) table.old table.new }
    ensures limit { (m : ℕ) → m < length stops.now.order.now + length stops.now.hubs.now
        → factor * distance instance.now from (stop_node stops.now.hubs.now stops.now.order.now m) ≤ most_leg }
{
    let Stops { hubs, order } = *stops;
    let distances = distances_from(instance, from);
    let at = t * (order.len() + hubs.len());
    let hubs_at = at + order.len();
    'places: for m in 0..order.len() {
        table[at + m] = factor * distances[order[m] as usize];
    }
    'hubs: for x in 0..hubs.len() {
        table[hubs_at + x] = factor * distances[hubs[x] as usize];
    }
}

/// Sets row `t` of a table to the legs from a node to the destinations from `start` on.
fn set_last_row(instance: &Instance, from: u32, start: u32, size: u32, table: &mut [u64], t: usize)
    requires from { from < instance.now.size }
    requires destinations { start + size ≤ instance.now.size }
    requires row { t * size + size ≤ length table.old }
    ensures row { let p = instance.now in
        IsRowSet size t size (λ j. p.deliver * distance p from (start + j)) table.old table.new }
    ensures limit { (j : ℕ) → j < size → instance.now.deliver * distance instance.now from (start + j) ≤ most_leg }
{
    let factor = instance.deliver();
    let distances = distances_from(instance, from);
    let first = start as usize;
    let size = size as usize;
    let at = t * size;
    for j in 0..size {
        table[at + j] = factor * distances[first + j];
    }
}

/// The node of the stop.
fn node_of(hubs: &[u32], order: &[u32], k: usize) -> u32
    requires { k < length order.now + length hubs.now }
    ensures { result ≡ stop_node hubs.now order.now k }
{
    let count = order.len();
    if k < count { order[k] } else { hubs[k - count] }
}

/// The distances from the node to each node.
#[tactic(auto, using(crate::proofs::LegLimits::distance_limit), unfolding(hub_spec::specs::Problem::distance))]
fn distances_from(instance: &Instance, i: u32) -> &[u64]
    requires { i < instance.now.size }
    ensures long { length result.now ≡ instance.now.size }
    ensures each { (j : ℕ) → j < instance.now.size → slice_index result.now j ≡ distance instance.now i j }
    ensures limit { (j : ℕ) → j < instance.now.size → distance instance.now i j ≤ most_distance }
{
    let n = instance.size() as usize;
    let start = i as usize * n;
    &instance.distances()[start..start + n]
}

//! Tables of legs between nodes and candidates, from the instance's distances.

ghost use Rattle.std.specs.Prelude.{◌≡◌, ◌*◌, ◌<◌, ◌≤◌, length, take, fold, max};
ghost use Rattle.hub_spec.specs.Limits.{most_nodes, most_distance, most_factor};
ghost use Rattle.hub_spec.specs.Problem.{distance, greatest, IsProblem};
ghost use Rattle.unit_duals.specs.Limits.{most_length};
ghost use Rattle.unit_duals.specs.Cells.{IsTable};
ghost use Rattle.hub_model.specs.CandidateLengths.{candidate_at, length_ceiling};
ghost use Rattle.leg_duals.specs.CandidateLegs.{collection_length, trunk_length, delivery_length};

use crate::filling::{Stops, set_row, set_trunk};
use hub_model::Instance;

/// The number of candidates.
#[tactic(auto, using(hub_model::proofs::CandidateNodes::few_places))]
pub(crate) fn places_of(instance: &Instance) -> usize
    ensures value { result ≡ length instance.now.candidates }
    ensures limit { result ≤ instance.now.size }
    ensures nodes { instance.now.size ≤ most_nodes }
{
    instance.candidates().len()
}

/// The ceiling of all lengths by unit of flow, by the greatest distance.
#[tactic(auto, unfolding(hub_model::specs::CandidateLengths::length_ceiling))]
pub(crate) fn ceiling_of(instance: &Instance, farthest: u64) -> u64
    requires value { farthest ≡ greatest instance.now.distances }
    requires limit { farthest ≤ most_distance }
    ensures value { result ≡ length_ceiling instance.now }
    ensures limit { result ≤ most_length }
{
    let factors = instance.collect() + instance.trunk() + instance.deliver();
    factors * farthest
}

/// The greatest distance.
#[tactic(auto, unfolding(hub_spec::specs::Problem::greatest))]
pub(crate) fn farthest_of(instance: &Instance) -> u64
    ensures value { result ≡ greatest instance.now.distances }
    ensures limit { result ≤ most_distance }
{
    let mut most = 0;
    for d in instance.distances() {
        most = most.max(*d);
    }
    most
}

/// Sets the legs of collection: a row for each origin.
pub(crate) fn set_collect(instance: &Instance, table: &mut [u64])
    requires { length table.old ≡ instance.now.size * length instance.now.candidates }
    ensures { IsTable (length instance.now.candidates) (λ i x v. v ≡ collection_length instance.now i x)
        table.new (length table.new) }
{
    let factor = instance.collect();
    let candidates = instance.candidates();
    let stops = Stops {
        hubs: candidates,
        order: &[],
    };
    for i in 0..instance.size() {
        set_row(instance, factor, i, &stops, table, i as usize);
    }
}

/// Sets the legs of trunk: a row for each place.
pub(crate) fn set_between(instance: &Instance, table: &mut [u64])
    requires { length table.old ≡ length instance.now.candidates * length instance.now.candidates }
    ensures { IsTable (length instance.now.candidates) (λ x y v. v ≡ trunk_length instance.now x y)
        table.new (length table.new) }
{
    set_trunk(instance, instance.candidates(), &[], table);
}

/// Sets the legs of delivery: a row for each destination.
pub(crate) fn set_deliver(instance: &Instance, table: &mut [u64])
    requires { length table.old ≡ instance.now.size * length instance.now.candidates }
    ensures { IsTable (length instance.now.candidates) (λ j x v. v ≡ delivery_length instance.now j x)
        table.new (length table.new) }
{
    let places = places_of(instance);
    for j in 0..instance.size() {
        for x in 0..places {
            let from = candidate(instance, x);
            table[j as usize * places + x] = leg(instance, instance.deliver(), from, j);
        }
    }
}

/// The candidate at the place.
fn candidate(instance: &Instance, x: usize) -> u32
    requires { x < length instance.now.candidates }
    ensures value { result ≡ candidate_at instance.now x }
    ensures node { result < instance.now.size }
{
    instance.candidates()[x]
}

/// The distance between the nodes times the factor.
fn leg(instance: &Instance, factor: u64, from: u32, to: u32) -> u64
    requires factor { factor ≤ most_factor }
    requires from { from < instance.now.size }
    requires to { to < instance.now.size }
    ensures { result ≡ factor * distance instance.now from to }
{
    factor * instance.distance_between(from, to)
}

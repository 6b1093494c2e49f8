//! The first commodity for which hubs are infeasible.

ghost use Rattle.std.specs.Prelude.{◌≡◌, ◌+◌, ◌*◌, ◌<◌, ◌≤◌, Some, length};
ghost use Rattle.hub_spec.specs.Limits.{most_distance, most_length};
ghost use Rattle.hub_spec.specs.Problem.{IsProblem, distance};
ghost use Rattle.hub_spec.specs.Plans.{IsCandidateSet};
ghost use Rattle.hub_spec.specs.Lacking.{serves, lacking};
ghost use Rattle.leg_duals.specs.Nearest.{IsNearest, AreNearest};

use hub_model::Instance;

/// The most hubs that there may be: as many as nodes.
const MOST_HUBS: usize = 200;

/// Origin and destination of the first commodity that has no allowed route through these hubs, if there is one. It
/// allocates nothing.
pub fn lacking(instance: &Instance, hubs: &[u32]) -> Option<(u32, u32)>
    requires { IsCandidateSet instance.now hubs.now }
    ensures { result ≡ lacking instance.now hubs.now }
{
    match instance.length_limit() {
        Some(most) => lacking_within(instance, hubs, most),
        None => None,
    }
}

/// The same where a route may be as far as `most`. The nearest ways from one origin to the last hubs serve all
/// commodities from it.
fn lacking_within(instance: &Instance, hubs: &[u32], most: u64) -> Option<(u32, u32)>
    requires set { IsCandidateSet instance.now hubs.now }
    requires problem { IsProblem instance.now }
    requires limit { instance.now.longest ≡ Some most }
    ensures { result ≡ lacking instance.now hubs.now }
{
    let n = instance.size();
    let mut nearest = [0; MOST_HUBS];
    for i in 0..n {
        set_nearest(instance, hubs, i, &mut nearest);
        for j in 0..n {
            if !is_served(instance, hubs, i, j, most, &nearest) {
                return Some((i, j));
            }
        }
    }
    None
}

/// Sets how far it is at least from `i` to each hub as the last one.
fn set_nearest(instance: &Instance, hubs: &[u32], i: u32, nearest: &mut [u64])
    requires set { IsCandidateSet instance.now hubs.now }
    requires problem { IsProblem instance.now }
    requires from { i < instance.now.size }
    requires room { length hubs.now ≤ length nearest.old }
    ensures { AreNearest instance.now hubs.now i nearest.new }
{
    for y in 0..hubs.len() {
        nearest[y] = nearest_by(instance, hubs, i, hubs[y]);
    }
}

/// How far it is at least from `i` to the hub `m` as the last one.
fn nearest_by(instance: &Instance, hubs: &[u32], i: u32, m: u32) -> u64
    requires set { IsCandidateSet instance.now hubs.now }
    requires problem { IsProblem instance.now }
    requires from { i < instance.now.size }
    requires last { m < instance.now.size }
    ensures { IsNearest instance.now hubs.now i m result }
{
    let mut least = away_by(instance, i, hubs[0], m);
    for k in hubs {
        least = least.min(away_by(instance, i, *k, m));
    }
    least
}

/// How far it is from `i` by the first hub `k` to the last hub `m`.
fn away_by(instance: &Instance, i: u32, k: u32, m: u32) -> u64
    requires from { i < instance.now.size }
    requires first { k < instance.now.size }
    requires last { m < instance.now.size }
    ensures value { result ≡ distance instance.now i k + distance instance.now k m }
    ensures limit { result ≤ 2 * most_distance }
{
    instance.distance_between(i, k) + instance.distance_between(k, m)
}

/// Tells whether the commodity from `i` to `j` has a route.
fn is_served(instance: &Instance, hubs: &[u32], i: u32, j: u32, most: u64, nearest: &[u64]) -> bool
    requires set { IsCandidateSet instance.now hubs.now }
    requires problem { IsProblem instance.now }
    requires limit { instance.now.longest ≡ Some most }
    requires from { i < instance.now.size }
    requires to { j < instance.now.size }
    requires room { length hubs.now ≤ length nearest.now }
    requires nearest { AreNearest instance.now hubs.now i nearest.now }
    ensures { result ≡ serves instance.now hubs.now (i, j) }
{
    if instance.flow_between(i, j) == 0 {
        return true;
    }
    for y in 0..hubs.len() {
        if nearest[y] + instance.distance_between(hubs[y], j) <= most {
            return true;
        }
    }
    false
}

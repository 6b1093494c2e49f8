//! The cost of a hub set, without allocation.

ghost use Rattle.std.specs.Prelude.{◌≡◌, ◌+◌, ◌*◌, ◌<◌, ◌≤◌, None, length};
ghost use Rattle.hub_spec.specs.Limits.{most_cost};
ghost use Rattle.hub_spec.specs.Problem.{distance, IsProblem};
ghost use Rattle.hub_spec.specs.Plans.{IsHubSet, IsSetCost};
ghost use Rattle.hub_model.specs.Amounts.{natural, IsNatural};
ghost use Rattle.unit_duals.specs.Limits.{most_leg};
ghost use Rattle.assign_sub.specs.LeastLengths.{AreReaches, least_reach, least_length};

use crate::limited::cost_of_limited;
use hub_model::{HubSet, Instance, signed};

/// The most hubs that there may be: as many as nodes.
const MOST_HUBS: usize = 200;

/// The least cost of a plan with exactly these hubs, in 10^-12. It allocates nothing.
pub fn set_cost(instance: &Instance, set: &HubSet) -> i128
    requires { IsHubSet instance.now set.now }
    ensures value { IsSetCost instance.now set.now (natural result) }
    ensures sign { IsNatural result }
{
    signed(cost_of_set(instance, set.members()))
}

/// The least cost of a plan with exactly these hubs, in 10^-12, unsigned. It allocates nothing.
pub fn cost_of_set(instance: &Instance, hubs: &[u32]) -> u128
    requires { IsHubSet instance.now hubs.now }
    ensures value { IsSetCost instance.now hubs.now result }
    ensures limit { result ≤ most_cost }
{
    match instance.length_limit() {
        None => cost_of_any_length(instance, hubs),
        Some(_) => cost_of_limited(instance, hubs),
    }
}

/// The same where the length of routes is not limited.
fn cost_of_any_length(instance: &Instance, hubs: &[u32]) -> u128
    requires set { IsHubSet instance.now hubs.now }
    requires any { instance.now.longest ≡ None }
    ensures value { IsSetCost instance.now hubs.now result }
    ensures limit { result ≤ most_cost }
{
    let n = instance.size();
    let mut reaches = [0; MOST_HUBS];
    let mut total = instance.opening_cost(hubs);
    for i in 0..n {
        set_reaches(instance, hubs, i, &mut reaches);
        for j in 0..n {
            let length = length_to(instance, hubs, i, &reaches, j);
            total += instance.flow_between(i, j) as u128 * length as u128;
        }
    }
    total
}

/// Sets the least length from `i` to each hub as the last one, by unit of flow.
fn set_reaches(instance: &Instance, hubs: &[u32], i: u32, reaches: &mut [u64])
    requires problem { IsProblem instance.now }
    requires set { IsHubSet instance.now hubs.now }
    requires from { i < instance.now.size }
    requires room { length hubs.now ≤ length reaches.old }
    ensures { AreReaches instance.now hubs.now i reaches.new }
{
    for y in 0..hubs.len() {
        reaches[y] = reach_of(instance, hubs, i, hubs[y]);
    }
}

/// The least length from `i` to the hub `m` as the last one.
fn reach_of(instance: &Instance, hubs: &[u32], i: u32, m: u32) -> u64
    requires problem { IsProblem instance.now }
    requires set { IsHubSet instance.now hubs.now }
    requires from { i < instance.now.size }
    requires last { m < instance.now.size }
    ensures { result ≡ least_reach instance.now hubs.now i m }
{
    let mut least = reach_by(instance, i, hubs[0], m);
    for x in 0..hubs.len() {
        least = least.min(reach_by(instance, i, hubs[x], m));
    }
    least
}

/// The length from `i` by the first hub `k` to the last hub `m`.
fn reach_by(instance: &Instance, i: u32, k: u32, m: u32) -> u64
    requires from { i < instance.now.size }
    requires first { k < instance.now.size }
    requires last { m < instance.now.size }
    ensures value { let p = instance.now in result ≡ p.collect * distance p i k + p.trunk * distance p k m }
    ensures limit { result ≤ 2 * most_leg }
{
    instance.collect() * instance.distance_between(i, k)
        + instance.trunk() * instance.distance_between(k, m)
}

/// The least length from `i` to `j`.
fn length_to(instance: &Instance, hubs: &[u32], i: u32, reaches: &[u64], j: u32) -> u64
    requires problem { IsProblem instance.now }
    requires set { IsHubSet instance.now hubs.now }
    requires from { i < instance.now.size }
    requires to { j < instance.now.size }
    requires room { length hubs.now ≤ length reaches.now }
    requires reaches { AreReaches instance.now hubs.now i reaches.now }
    ensures { result ≡ least_length instance.now hubs.now i j }
{
    let factor = instance.deliver();
    let mut least = reaches[0] + factor * instance.distance_between(hubs[0], j);
    for y in 0..hubs.len() {
        least = least.min(reaches[y] + factor * instance.distance_between(hubs[y], j));
    }
    least
}

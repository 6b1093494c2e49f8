//! The sums of a leaf.

ghost use Rattle.std.specs.Prelude.{◌≡◌, ◌≢◌, ℕ, ◌+◌, ◌-◌, ◌*◌, ◌/◌, ◌^◌, ◌≤◌, ◌<◌, ◌↔◌, [], length, slice_index, sum_by, IsTrue, IfOk, All};
ghost use Rattle.hub_spec.specs.Limits.{most_nodes, most_part, most_cost, most_denominator, most_fixed_cost};
ghost use Rattle.hub_spec.specs.Problem.{fixed_cost};
ghost use Rattle.hub_spec.specs.Trees.{Closes, IsBranch};
ghost use Rattle.hub_spec.specs.Ranges.{IsShort};
ghost use Rattle.cert_lines.specs.Marks.{marked};
ghost use Rattle.cert_lines.specs.Trails.{IsReached};
ghost use Rattle.cert_lines.specs.Paths.{next};
ghost use Rattle.cert_lines.specs.Tallies.{IsMultipleOf, IsBegun, IsAdded, tally_gain, tally_bound, free_sum};
ghost use Rattle.cert_lines.specs.LeastGains.{AreGains};

use crate::gains::sum_of_least;
use crate::paths::TreePath;
use hub_model::{Instance, difference, signed};
use std::alloc::{AllocError, Global};
use std::marker::Model;

/// The sums of a leaf over the pairs read so far: the weights, and the weighted totals and loads of the cuts. A cut
/// counts as often as its weight has its part.
#[derive(Drop)]
pub struct LeafSums {
    denom: u128,
    weight: u128,
    base: u128,
    loads: Vec<u128>,
}

impl Model for LeafSums {
    ghost use Rattle.cert_lines.specs.Tallies.{Tally, tally_of, IsWithin};

    ghost Value = { Tally };

    ghost view = { λ s. tally_of s.denom s.weight s.base s.loads.items };

    ghost invariant = { λ s. IsWithin (tally_of s.denom s.weight s.base s.loads.items) };
}

impl LeafSums {
    /// Empty sums, with the denominator 1. Only this call allocates: a load for each node.
    pub fn new(alloc: Global, instance: &Instance) -> Result<LeafSums, AllocError>
        ensures { IfOk result (IsBegun 1 instance.now.size) }
    {
        Ok(LeafSums {
            denom: 1,
            weight: 0,
            base: 0,
            loads: vec![in alloc; 0; instance.size() as usize]?,
        })
    }

    /// Begins the sums of a leaf with this denominator.
    pub fn begin(&mut self, denom: u128)
        requires { denom ≤ most_denominator }
        ensures { IsBegun denom (length self.old.loads) self.new }
    {
        self.denom = denom;
        self.weight = 0;
        self.base = 0;
        self.loads.fill(0);
    }

    /// Tells whether the weights with this one added are at most the denominator.
    pub fn fits(&self, weight: u128) -> bool
        ensures { IsTrue result ↔ (self.now.weight + weight ≤ self.now.denom) }
    {
        weight <= self.denom - self.weight
    }

    /// Adds a cut with a weight that fits. Its total and its loads by node count as often as the weight has the part,
    /// rounded down.
    pub fn add(&mut self, weight: u128, part: u32, total: u128, loads: &[u128])
        requires fits { self.old.weight + weight ≤ self.old.denom }
        requires part_least { 1 ≤ part }
        requires part_most { part ≤ most_part }
        requires total { total ≤ part * most_cost }
        requires count { length loads.now ≡ length self.old.loads }
        requires loads { All (λ (load : ℕ). load ≤ part * most_cost) loads.now }
        ensures { IsAdded self.old weight part total loads.now self.new }
    {
        add_loads(&mut self.loads, self.weight, weight, part, loads);
        self.base += times_of(weight, part) * total;
        self.weight += weight;
    }

    /// Tells whether the path's next branch is fathomed by the bound of these sums at the cutoff `target`, in 10^-12.
    /// On a path of the instance it is a branch of the instance.
    pub fn closes(&self, path: &TreePath, instance: &Instance, target: u128) -> bool
        requires some { path.now.pending ≢ [] }
        requires nodes { path.now.size ≡ instance.now.size }
        requires loads { length self.now.loads ≡ instance.now.size }
        requires target { IsShort target }
        ensures closes { IsTrue result ↔ Closes self.now.denom target (tally_bound instance.now self.now (next path.now.pending)) }
        ensures branch { path.now.candidates ≡ instance.now.candidates → IsBranch instance.now (next path.now.pending) }
    {
        difference(self.denom * target, self.denom) < self.bound(path, instance)
    }

    /// The bound of the path's next branch by these sums.
    fn bound(&self, path: &TreePath, instance: &Instance) -> i128
        requires some { path.now.pending ≢ [] }
        requires nodes { path.now.size ≡ instance.now.size }
        requires loads { length self.now.loads ≡ instance.now.size }
        ensures value { result ≡ tally_bound instance.now self.now (next path.now.pending) }
        ensures reached { IsReached path.now.candidates (next path.now.pending) }
    {
        let inside = path.inside();
        let costs = weighted_costs(instance, self.denom, inside);
        let gone = loads_of(instance, &self.loads, inside);
        difference(self.base + costs, gone) + self.free_sum(path, instance)
    }

    /// What the free nodes of the path's next branch add to the bound.
    fn free_sum(&self, path: &TreePath, instance: &Instance) -> i128
        requires some { path.now.pending ≢ [] }
        requires nodes { path.now.size ≡ instance.now.size }
        requires loads { length self.now.loads ≡ instance.now.size }
        ensures value { result
            ≡ free_sum instance.now.wanted (tally_gain instance.now self.now) (next path.now.pending) }
        ensures limit { AreGains most_nodes result }
    {
        let free = path.free();
        match instance.wanted() {
            Some(wanted) => {
                let missing = (wanted as usize).saturating_sub(path.hub_count());
                sum_of_least(instance, self.denom, &self.loads, free, missing)
            }
            None => -signed(losses(instance, self.denom, &self.loads, free)),
        }
    }
}

/// Tells whether the weight is a multiple of the part.
pub fn is_multiple(weight: u128, part: u32) -> bool
    requires { 1 ≤ part }
    ensures { IsTrue result ↔ IsMultipleOf part weight }
{
    weight % part as u128 == 0
}

/// How often the weight has the part, rounded down.
fn times_of(weight: u128, part: u32) -> u128
    requires { 1 ≤ part }
    ensures value { result ≡ weight / part }
    ensures limit { result * part ≤ weight }
{
    weight / part as u128
}

/// Adds the other loads to each load, as often as the weight has the part.
fn add_loads(sums: &mut [u128], before: u128, weight: u128, part: u32, loads: &[u128])
    requires part { 1 ≤ part }
    requires fits { before + weight ≤ most_denominator }
    requires count { length loads.now ≡ length sums.old }
    requires sums { All (λ (sum : ℕ). sum ≤ before * most_cost) sums.old }
    requires loads { All (λ (load : ℕ). load ≤ part * most_cost) loads.now }
    ensures each { (k : ℕ) → k < length sums.old
        → slice_index sums.new k ≡ slice_index sums.old k + weight / part * slice_index loads.now k }
    ensures limit { All (λ (sum : ℕ). sum ≤ (before + weight) * most_cost) sums.new }
{
    let times = times_of(weight, part);
    for k in 0..sums.len() {
        sums[k] += times * loads[k];
    }
}

/// The sum of the marked nodes' fixed costs, times the denominator.
fn weighted_costs(instance: &Instance, denom: u128, marks: &[bool]) -> u128
    requires denom { denom ≤ most_denominator }
    requires nodes { length marks.now ≡ instance.now.size }
    ensures value { result ≡ sum_by (λ k. denom * fixed_cost instance.now k) (marked marks.now) }
    ensures limit { result ≤ most_nodes * (most_denominator * most_fixed_cost) }
{
    let mut sum = 0;
    for k in 0..instance.size() {
        if marks[k as usize] {
            sum += denom * instance.fixed_cost(k);
        }
    }
    sum
}

/// The sum of the marked nodes' loads.
fn loads_of(instance: &Instance, loads: &[u128], marks: &[bool]) -> u128
    requires nodes { length marks.now ≡ instance.now.size }
    requires count { length loads.now ≡ instance.now.size }
    requires loads { All (λ (load : ℕ). load ≤ most_denominator * most_cost) loads.now }
    ensures value { result ≡ sum_by (slice_index loads.now) (marked marks.now) }
    ensures limit { result ≤ most_nodes * (most_denominator * most_cost) }
{
    let mut sum = 0;
    for k in 0..instance.size() {
        let at = k as usize;
        if marks[at] {
            sum += loads[at];
        }
    }
    sum
}

/// The sum of what the marked nodes' loads exceed their fixed costs by, these times the denominator.
fn losses(instance: &Instance, denom: u128, loads: &[u128], marks: &[bool]) -> u128
    requires denom { denom ≤ most_denominator }
    requires nodes { length marks.now ≡ instance.now.size }
    requires count { length loads.now ≡ instance.now.size }
    requires loads { All (λ (load : ℕ). load ≤ most_denominator * most_cost) loads.now }
    ensures value { result ≡ sum_by (λ k. slice_index loads.now k - denom * fixed_cost instance.now k) (marked marks.now) }
    ensures limit { result ≤ most_nodes * (most_denominator * most_cost) }
{
    let mut sum = 0;
    for k in 0..instance.size() {
        let at = k as usize;
        if marks[at] {
            sum += loads[at].saturating_sub(denom * instance.fixed_cost(k));
        }
    }
    sum
}

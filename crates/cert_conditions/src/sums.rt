//! The sums of a cut.

ghost use Rattle.std.specs.Prelude.{◌≡◌, ℕ, ◌+◌, ◌*◌, ◌<◌, ◌≤◌, ◌↔◌, length, slice_index, IsTrue, IfOk, All};
ghost use Rattle.hub_spec.specs.Limits.{most_nodes, most_part, most_cost};
ghost use Rattle.hub_spec.specs.Cuts.{value_at};
ghost use Rattle.hub_spec.specs.Ranges.{IsAmount, IsDualInRange};
ghost use Rattle.cert_conditions.specs.Sums.{IsNoDual, IsRunAdded, AreWithin, most_duals, most_load};

use hub_model::MOST_COST;
use std::alloc::{AllocError, Global};
use std::marker::Model;

/// The part of a cut, the number of its duals, the sum of their prices, and by node the sums of their values. Prices and
/// values are in 10^-12.
#[derive(Drop)]
pub(crate) struct RunningSums {
    part: u32,
    count: u32,
    total: u128,
    loads: Vec<u128>,
}

impl Model for RunningSums {
    ghost use Rattle.cert_conditions.specs.Sums.{CutTally, AreWithinRange};

    ghost Value = { CutTally };

    ghost view = { λ s. record { part = s.part; count = s.count; total = s.total; loads = s.loads.items } };

    ghost invariant = { λ s. AreWithinRange (record {
      part = s.part;
      count = s.count;
      total = s.total;
      loads = s.loads.items;
    }) };
}

impl RunningSums {
    /// The sums of no dual over `n` nodes, for a cut with this part.
    pub(crate) fn new(alloc: Global, n: u32, part: u32) -> Result<RunningSums, AllocError>
        requires least { 1 ≤ part }
        requires most { part ≤ most_part }
        ensures { IfOk result (IsNoDual n part) }
    {
        Ok(RunningSums {
            part,
            count: 0,
            total: 0,
            loads: vec![in alloc; 0; n as usize]?,
        })
    }

    /// Adds `run` equal duals of this price and these values.
    pub(crate) fn add(&mut self, run: u32, price: u128, values: &[(u32, u128)])
        requires few { self.old.count + run ≤ most_duals }
        requires dual { IsDualInRange (length self.old.loads) (record { a = price; u = values.now }) }
        ensures { IsRunAdded self.old run (record { a = price; u = values.now }) self.new }
    {
        add_values(&mut self.loads, run as u128, values);
        self.total += run as u128 * price;
        self.count += run;
    }

    /// The part of the cut.
    pub(crate) fn part(&self) -> u32
        ensures part { result ≡ self.now.part }
        ensures least { 1 ≤ result }
        ensures most { result ≤ most_part }
    {
        self.part
    }

    /// The number of duals that were added.
    pub(crate) fn count(&self) -> u32
        ensures { result ≡ self.now.count }
    {
        self.count
    }

    /// Whether the total and the loads are at most 10^29 for each unit of the part.
    pub(crate) fn are_within(&self) -> bool
        ensures { IsTrue result ↔ AreWithin self.now }
    {
        let most = self.part as u128 * MOST_COST;
        self.total <= most && are_loads_within(&self.loads, most)
    }

    /// The sum of the prices.
    pub(crate) fn total(&self) -> u128
        ensures { result ≡ self.now.total }
    {
        self.total
    }

    /// The sums of the values, by node.
    pub(crate) fn loads(&self) -> &[u128]
        ensures { result.now ≡ self.now.loads }
    {
        &self.loads
    }
}

fn are_loads_within(loads: &[u128], most: u128) -> bool
    ensures { IsTrue result ↔ All (λ (load : ℕ). load ≤ most) loads.now }
{
    loads.iter().all(|load| *load <= most)
}

// Adds the values to the loads of their nodes, each so many times.
pub(crate) fn add_values(loads: &mut [u128], run: u128, values: &[(u32, u128)])
    requires few { run ≤ most_duals }
    requires dual { IsDualInRange (length loads.old) (record { a = 0; u = values.now }) }
    requires most { All (λ (load : ℕ). load ≤ most_load) loads.old }
    ensures { (k : ℕ) → slice_index loads.new k ≡ slice_index loads.old k + run * value_at values.now k }
{
    for e in 0..values.len() {
        let (k, value) = values[e];
        loads[k as usize] += run * value;
    }
}

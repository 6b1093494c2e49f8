//! The sums of an origin's duals.

ghost use Rattle.std.specs.Prelude.{◌≡◌, ℕ, ◌+◌, ◌^◌, ◌<◌, ◌≤◌, length, slice_index, All};
ghost use Rattle.pareto_cuts.specs.UnitCosts.{AreDualsFrom};
ghost use Rattle.pareto_cuts.specs.Separations.{origin_total, origin_load};

use crate::flows::{add_rows, flows_from, weighted};
use crate::{OriginScratch, Separation};

impl OriginScratch {
    /// The sum of the prices of the duals computed for `i`, in 10^-12.
    pub fn total(&self, separation: &Separation, i: u32) -> u128
        requires origin { i < separation.now.problem.size }
        requires duals { AreDualsFrom separation.now i self.now.prices self.now.values }
        ensures { let s = separation.now in result ≡ origin_total s.problem s.hubs s.order i s.start s.legs.size }
    {
        total_of(separation, i, self.prices(), self.values())
    }

    /// Adds the values of the duals computed for `i` to the loads, one load for each node, in 10^-12.
    pub fn add_loads(&self, separation: &Separation, i: u32, loads: &mut [u128])
        requires origin { i < separation.now.problem.size }
        requires duals { AreDualsFrom separation.now i self.now.prices self.now.values }
        requires long { length loads.old ≡ separation.now.problem.size }
        requires limit { All (λ v. v ≤ 2 ^ 120) loads.old }
        ensures long { length loads.new ≡ length loads.old }
        ensures loads { let s = separation.now in (k : ℕ) → k < s.problem.size → slice_index loads.new k
            ≡ slice_index loads.old k + origin_load s.problem s.hubs s.order i s.start s.legs.size k }
    {
        add_loads_to(separation, i, self.prices(), self.values(), loads);
    }
}

fn total_of(separation: &Separation, i: u32, prices: &[u64], values: &[u64]) -> u128
    requires origin { i < separation.now.problem.size }
    requires duals { AreDualsFrom separation.now i prices.now values.now }
    ensures { let s = separation.now in result ≡ origin_total s.problem s.hubs s.order i s.start s.legs.size }
{
    let flows = flows_from(separation.instance(), i, separation.start(), prices.len());
    weighted(flows, prices)
}

fn add_loads_to(separation: &Separation, i: u32, prices: &[u64], values: &[u64], loads: &mut [u128])
    requires origin { i < separation.now.problem.size }
    requires duals { AreDualsFrom separation.now i prices.now values.now }
    requires long { length loads.old ≡ separation.now.problem.size }
    requires limit { All (λ v. v ≤ 2 ^ 120) loads.old }
    ensures loads { let s = separation.now in (k : ℕ) → k < s.problem.size → slice_index loads.new k
        ≡ slice_index loads.old k + origin_load s.problem s.hubs s.order i s.start s.legs.size k }
{
    let flows = flows_from(separation.instance(), i, separation.start(), prices.len());
    add_rows(separation.order(), flows, values, loads);
}

//! The exact prices of values.

ghost use Rattle.std.specs.Prelude.{◌≡◌, ◌≤◌, IfOk, OnOk};
ghost use Rattle.cut_model.specs.ValueRows.{AreValuesFor, value_cut};
ghost use Rattle.value_cuts.specs.Prices.{AreRowPrices};
ghost use Rattle.ascent_search.specs.SingleCuts.{AreLoads};
ghost use Rattle.ascent_search.specs.Benches.{IsPricingFor};

use std::alloc::{AllocError, Global};
use std::thread::Threads;
use value_cuts::{CandidateLegs, PriceScratch, Values, set_prices_by_workers, sums_of};

/// Room for prices and loads of a Benders cut from dual values.
#[derive(Drop)]
pub(crate) struct Pricing {
    pub(crate) prices: Vec<u64>,
    pub(crate) loads: Vec<u128>,
    pub(crate) scratch: PriceScratch,
}

impl Pricing {
    /// Room for the instance of these tables.
    pub(crate) fn new(alloc: Global, tables: &CandidateLegs) -> Result<Pricing, AllocError>
        ensures { IfOk result (IsPricingFor tables.now) }
    {
        let size = tables.instance().size() as usize;
        Ok(Pricing {
            prices: vec![in alloc; 0; size * size]?,
            loads: vec![in alloc; 0; size]?,
            scratch: PriceScratch::new(alloc, tables)?,
        })
    }

    /// Computes the exact prices of the values, by several workers.
    pub(crate) fn price<R: Threads + Sync>(
        &mut self,
        rt: &R,
        alloc: Global,
        tables: &CandidateLegs,
        values: &Values,
        workers: u32,
    ) -> Result<(), AllocError>
        requires fit { IsPricingFor tables.now self.old }
        requires values { AreValuesFor tables.now values.now }
        requires workers { (1 ≤ workers) × (workers ≤ 64) }
        ensures fit { IsPricingFor tables.now self.new }
        ensures prices { OnOk result (AreRowPrices tables.now values.now self.new.prices.items) }
    {
        set_prices_by_workers(
            rt,
            alloc,
            tables,
            values,
            workers,
            &mut self.scratch,
            &mut self.prices,
        )
    }

    /// Computes the loads of the Benders cut from the values, whose prices are known, and returns its total. Where one
    /// of these nodes is open, the offset is the least difference of fixed cost and load over them, if it is above 0.
    pub(crate) fn sum(
        &mut self,
        tables: &CandidateLegs,
        values: &mut Values,
        some_open: &[u32],
    ) -> u128
        requires fit { IsPricingFor tables.now self.old }
        requires values { AreValuesFor tables.now values.old }
        requires prices { AreRowPrices tables.now values.old self.old.prices.items }
        ensures fit { IsPricingFor tables.now self.new }
        ensures values { AreValuesFor tables.now values.new }
        ensures sums { AreLoads tables.now (value_cut tables.now values.new) result self.new.loads.items }
    {
        let total = self.sum_loads(tables, values);
        let offset = least_rest(tables.instance().fixed_costs(), &self.loads, some_open);
        if offset == 0 {
            return total;
        }
        values.set_offset(offset);
        self.sum_loads(tables, values)
    }

    // Computes the loads for the offset that is set, and returns the total.
    fn sum_loads(&mut self, tables: &CandidateLegs, values: &Values) -> u128
        requires fit { IsPricingFor tables.now self.old }
        requires values { AreValuesFor tables.now values.now }
        requires prices { AreRowPrices tables.now values.now self.old.prices.items }
        ensures fit { IsPricingFor tables.now self.new }
        ensures prices { self.new.prices ≡ self.old.prices }
        ensures sums { AreLoads tables.now (value_cut tables.now values.now) result self.new.loads.items }
    {
        sums_of(tables, values, &self.prices, &mut self.loads)
    }
}

// The least of what the nodes' fixed costs are above their loads, 0 for no node.
fn least_rest(fixed: &[u128], loads: &[u128], nodes: &[u32]) -> u128 {
    if nodes.is_empty() {
        return 0;
    }
    let mut least = u128::MAX;
    for k in nodes {
        let own = fixed.get(*k as usize).copied().unwrap_or(0);
        let load = loads.get(*k as usize).copied().unwrap_or(0);
        least = least.min(own.saturating_sub(load));
    }
    least
}

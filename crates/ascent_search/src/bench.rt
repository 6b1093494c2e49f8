//! The workspace of exact computations.

ghost use Rattle.std.specs.Prelude.{◌≡◌, ◌≤◌, length, IfOk};
ghost use Rattle.hub_spec.specs.Problem.{Problem};
ghost use Rattle.hub_spec.specs.Plans.{IsHubSet};
ghost use Rattle.hub_spec.specs.Separation.{IsOrder, set_cut};
ghost use Rattle.cut_model.specs.ValueRows.{AreValuesFor, value_cut};
ghost use Rattle.ascent_search.specs.SingleCuts.{AreLoads};

use crate::pricing::Pricing;
use hub_model::{HubSet, Instance};
use pareto_cuts::Scratch;
use std::alloc::{AllocError, Global};
use std::marker::Model;
use std::thread::Threads;
use value_cuts::{CandidateLegs, Values};

/// The instance's tables, the loads of the last cut, and buffers.
#[derive(Drop)]
pub(crate) struct Bench<'a> {
    tables: CandidateLegs<'a>,
    pricing: Pricing,
    sets: Scratch,
}

impl<'a> Model for Bench<'a> {
    ghost use Rattle.ascent_search.specs.Benches.{BenchState};
    ghost use Rattle.ascent_search.specs.BenchParts.{state_of, AreParts};

    ghost Value = { BenchState };

    ghost view = { state_of };

    ghost invariant = { AreParts };
}

impl<'a> Bench<'a> {
    /// A workspace for the instance.
    pub(crate) fn new(alloc: Global, instance: &'a Instance) -> Result<Bench<'a>, AllocError>
        ensures { IfOk result (λ b. b.problem ≡ instance.now) }
    {
        let tables = CandidateLegs::new(alloc, instance)?;
        let pricing = Pricing::new(alloc, &tables)?;
        let sets = Scratch::new(alloc, instance)?;
        Ok(Bench {
            tables,
            pricing,
            sets,
        })
    }

    /// Computes the exact prices of the values by 1 to 64 workers, sets their offset, and returns the total of their cut.
    /// One of the nodes `some_open` is open, unless there are none. With one worker it takes no memory.
    pub(crate) fn value_sums<R: Threads + Sync>(
        &mut self,
        rt: &R,
        alloc: Global,
        workers: u32,
        values: &mut Values,
        some_open: &[u32],
    ) -> Result<u128, AllocError>
        requires workers { (1 ≤ workers) × (workers ≤ 64) }
        requires values { AreValuesFor self.old.problem values.old }
        ensures problem { self.new.problem ≡ self.old.problem }
        ensures fit { AreValuesFor self.new.problem values.new }
        ensures sums { let b = self.new in IfOk result (λ total. AreLoads b.problem (value_cut b.problem values.new) total b.loads) }
    {
        self.pricing
            .price(rt, alloc, &self.tables, values, workers)?;
        Ok(self.pricing.sum(&self.tables, values, some_open))
    }

    /// The total of the cut of the hub set over the order. It takes no memory.
    pub(crate) fn set_sums(&mut self, set: &HubSet, order: &[u32]) -> u128
        requires set { IsHubSet self.old.problem set.now }
        requires order { IsOrder self.old.problem set.now order.now }
        ensures problem { self.new.problem ≡ self.old.problem }
        ensures sums { AreLoads self.new.problem (set_cut self.new.problem set.now order.now) result self.new.loads }
    {
        let instance = self.tables.instance();
        pareto_cuts::cut_sums(
            &mut self.sets,
            instance,
            set,
            order,
            &mut self.pricing.loads,
        )
    }

    /// The load of each node in the last cut, in 10^-12.
    pub(crate) fn loads(&self) -> &[u128]
        ensures { result.now ≡ self.now.loads }
    {
        &self.pricing.loads
    }
}

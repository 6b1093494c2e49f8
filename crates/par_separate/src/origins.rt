//! The contribution of one origin to the sums of a cut.

ghost use Rattle.std.specs.Prelude.{◌<◌, ◌≤◌};
ghost use Rattle.par_separate.specs.Origins.{IsWhole, AreSumsFrom};

use claim_board::Job;
use pareto_cuts::{OriginScratch, Separation};
use std::alloc::{AllocError, Global};

/// The sums of the duals of all commodities from one origin, in 10^-12.
#[derive(Drop)]
pub struct OriginSums {
    /// The sum of their prices.
    pub total: u128,
    /// For each node, the sum of its values.
    pub loads: Vec<u128>,
}

/// The origins of a separation as a job of the worker pool, for the sums of each: block i is origin i.
#[derive(Drop)]
pub(crate) struct SumsByOrigin<'a> {
    pub(crate) separation: &'a Separation<'a>,
}

impl<'a> Job<OriginSums> for SumsByOrigin<'a> {
    type Scratch = OriginScratch;

    ghost answer = { λ job i sums. AreSumsFrom job.separation.now i sums };

    ghost accepts = { λ job i. (i < job.separation.now.problem.size) × IsWhole job.separation.now };

    ghost serves = { λ job scratch. job.separation.now.problem.size ≤ scratch.room };

    fn new_scratch(&self, alloc: Global) -> Result<OriginScratch, AllocError> {
        OriginScratch::new(alloc, self.separation.instance().size() as usize)
    }

    fn at(
        &self,
        alloc: Global,
        scratch: &mut OriginScratch,
        block: u32,
    ) -> Result<OriginSums, AllocError> {
        let mut loads = vec![in alloc; 0; self.separation.instance().size() as usize]?;
        scratch.work_out(self.separation, block);
        scratch.add_loads(self.separation, block, &mut loads);
        let total = scratch.total(self.separation, block);
        Ok(OriginSums { total, loads })
    }
}

//! The duals of one origin.

ghost use Rattle.std.specs.Prelude.{◌≡◌, ◌<◌, ◌≤◌, IfOk};
ghost use Rattle.pareto_cuts.specs.UnitCosts.{AreDualsFrom};
ghost use Rattle.par_separate.specs.Origins.{IsWhole, AreMinimalDualsFrom};

use claim_board::Job;
use hub_model::Dual;
use pareto_cuts::{DualBuffer, OriginScratch, Separation};
use std::alloc::{AllocError, Global};

/// What a worker makes duals in: those of an origin by unit of flow, and one of them as it is handed on.
#[derive(Drop)]
pub(crate) struct OriginDualScratch {
    pub(crate) origin: OriginScratch,
    pub(crate) dual: DualBuffer,
}

/// The origins of a separation as a job of the worker pool, for the duals of each: block i is origin i.
#[derive(Drop)]
pub(crate) struct DualsByOrigin<'a> {
    pub(crate) separation: &'a Separation<'a>,
}

impl<'a> Job<Vec<Dual>> for DualsByOrigin<'a> {
    type Scratch = OriginDualScratch;

    ghost answer = { λ job i duals. AreMinimalDualsFrom job.separation.now i duals.items };

    ghost accepts = { λ job i. (i < job.separation.now.problem.size) × IsWhole job.separation.now };

    ghost serves = { λ job scratch. (job.separation.now.problem.size ≤ scratch.origin.room)
        × (job.separation.now.problem.size ≤ scratch.dual.room) };

    fn new_scratch(&self, alloc: Global) -> Result<OriginDualScratch, AllocError> {
        let room = self.separation.instance().size() as usize;
        Ok(OriginDualScratch {
            origin: OriginScratch::new(alloc, room)?,
            dual: DualBuffer::new(alloc, room)?,
        })
    }

    fn at(
        &self,
        alloc: Global,
        scratch: &mut OriginDualScratch,
        block: u32,
    ) -> Result<Vec<Dual>, AllocError> {
        let OriginDualScratch { origin, dual } = scratch;
        origin.work_out(self.separation, block);
        duals_from(alloc, self.separation, origin, block, dual)
    }
}

// The duals from `i` to each node in order, which were worked out.
fn duals_from(
    alloc: Global,
    separation: &Separation,
    origin: &OriginScratch,
    i: u32,
    dual: &mut DualBuffer,
) -> Result<Vec<Dual>, AllocError>
    requires origin { i < separation.now.problem.size }
    requires whole { IsWhole separation.now }
    requires duals { AreDualsFrom separation.now i origin.now.prices origin.now.values }
    requires room { separation.now.problem.size ≤ dual.old.room }
    ensures room { dual.new.room ≡ dual.old.room }
    ensures duals { IfOk result (λ duals. AreMinimalDualsFrom separation.now i duals.items) }
{
    let nodes = separation.instance().size() as usize;
    let mut duals = Vec::with_capacity(alloc, nodes)?;
    for j in 0..nodes {
        dual.make(separation, origin, i, j);
        duals.push(lent_dual(alloc, dual)?)?;
    }
    Ok(duals)
}

// The dual that was made last, in a type of its own.
fn lent_dual(alloc: Global, dual: &DualBuffer) -> Result<Dual, AllocError>
    ensures { IfOk result (λ d. d ≡ dual.now.dual) }
{
    let (a, u) = dual.dual();
    Ok(Dual::new(a, u.to_vec(alloc)?))
}

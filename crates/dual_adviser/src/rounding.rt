//! Rounding: the hub set that penalties give, to improve, and to make duals tight at; and the fits of a node.

ghost use Rattle.dual_ascent.specs.Shapes.{KeepsShape};

use crate::adviser::Adviser;
use crate::fitting::Manner;
use ascent_lengths::PassWorkers;
use std::alloc::AllocError;
use std::thread::Threads;

/// Duals are made tight at a set if its cost is above the bound by less than this part of it, and above the cutoff by
/// less than `NEAR_BEST` of that.
const NEAR_BOUND: i128 = 1 << 10;

const NEAR_BEST: i128 = 1 << 7;
/// And if the guess leaves at most this part of the gap, or `GUESSED_COST` of the cutoff.
const GUESSED_GAP: i128 = 4;

const GUESSED_COST: i128 = 1 << 17;

impl Adviser {
    /// Rounds the penalties to a set, improves it by local search, and makes the duals tight at it, if the bound then
    /// reaches the cutoff.
    pub(crate) fn round<R: Threads + Sync>(
        &mut self,
        workers: &PassWorkers<'_, R>,
        wanted: i128,
    ) -> Result<(), AllocError>
        ensures { KeepsShape self.old self.new }
    {
        if !self.node.mark_rounded(&mut self.sets.rounded) {
            return Ok(());
        }
        if self.sets.note_rounded() {
            self.node.mark_near(&mut self.sets.movable);
            self.sets
                .improve_rounded(&mut self.search, &self.lengths, &*workers);
        }
        let wanted = wanted.min(self.sets.known);
        if self.progress.bound >= wanted && self.lengths.slack() == 0 {
            return Ok(());
        }
        self.finish(workers, wanted)
    }

    /// Makes the duals tight at the rounded set, if the bound then reaches the cutoff.
    pub(crate) fn finish<R: Threads + Sync>(
        &mut self,
        workers: &PassWorkers<'_, R>,
        wanted: i128,
    ) -> Result<(), AllocError>
        ensures { KeepsShape self.old self.new }
    {
        let bound = self.progress.bound;
        let cost = self.search.cost(&self.lengths, &self.sets.rounded);
        let is_near = cost.wrapping_sub(bound) < cost / NEAR_BOUND
            && cost.wrapping_sub(wanted) < wanted / NEAR_BEST;
        if !is_near {
            return Ok(());
        }
        self.fitting
            .take(workers.alloc, &self.lengths, &self.sets.rounded)?;
        let left = wanted.wrapping_sub(self.fit(workers, Manner::Guess)?);
        let is_far = left > wanted.wrapping_sub(bound) / GUESSED_GAP;
        if is_far && left > wanted / GUESSED_COST {
            return Ok(());
        }
        if self.fit(workers, Manner::Bound)? >= wanted {
            self.progress.bound = self.fit(workers, Manner::Tight)?;
        }
        Ok(())
    }

    /// Completes the duals at the places outside the core.
    pub(crate) fn complete<R: Threads + Sync>(
        &mut self,
        workers: &PassWorkers<'_, R>,
    ) -> Result<(), AllocError>
        ensures { KeepsShape self.old self.new }
    {
        if !self.node.is_whole() {
            let _ = self.fit(workers, Manner::Whole)?;
        }
        Ok(())
    }

    /// Computes the duals in this manner, and returns the bound by them. Those that are stored are complete.
    fn fit<R: Threads + Sync>(
        &mut self,
        workers: &PassWorkers<'_, R>,
        manner: Manner,
    ) -> Result<i128, AllocError>
        ensures { KeepsShape self.old self.new }
    {
        self.node.sort_by_load(&self.state.sums().loads);
        let (lengths, state) = (&self.lengths, &mut self.state);
        let bound = self
            .fitting
            .fit(workers, lengths, state, &self.node, manner)?;
        if manner.keeps() {
            self.node.make_whole();
        }
        Ok(bound)
    }
}

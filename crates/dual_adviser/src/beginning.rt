//! The start of a node, and what precedes each pass.

ghost use Rattle.dual_ascent.specs.Shapes.{KeepsShape};

use crate::adviser::Adviser;
use crate::fitting::Manner;
use crate::single::fit_single;
use ascent_lengths::{PassWorkers, copy, fill, marked};
use dual_ascent::NO_GAIN;
use dual_flow::FULL_PRICE;
use hub_moves::Ground;
use std::alloc::AllocError;
use std::thread::Threads;

/// In this many first passes at the root the start set gives caps and least penalties.
const EARLY_PASSES: usize = 3;
/// At the root the core is chosen again after this many passes, and after the first and the third.
const ROOT_AGE: usize = 6;
/// Below the root a core is chosen again after this many passes.
const MOST_AGE: usize = 12;
/// How far from a penalty a place of the core may be, in parts of full.
const REACH: i64 = FULL_PRICE * 3 / 10;
/// An upper bound on the worth of a hub: all flows over the longest routes (`units`).
const MOST_HUB_WORTH: i128 = 1 << 60;

/// The root's ramps are wide while the gap is at least this many thousandths.
const WIDE_GAP: i128 = 20;
/// Penalties up to `COARSE` count as 0 while the gap is at least `COARSE_GAP` thousandths; the lesser pair is for the
/// root alone.
const COARSE_GAP: i128 = 10;

const COARSE: i64 = FULL_PRICE / 32;

const LESS_COARSE_GAP: i128 = 1;

const LESS_COARSE: i64 = FULL_PRICE / 128;

impl Adviser {
    /// Starts a node: a local search from its start set, unless that was tried before, gives the first hub set. At the
    /// root caps and ramps follow from it. Returns whether the node is fathomed by that.
    pub(crate) fn begin<R: Threads + Sync>(
        &mut self,
        workers: &PassWorkers<'_, R>,
    ) -> Result<bool, AllocError>
        ensures { KeepsShape self.old self.new }
    {
        if !self.node.is_root() {
            if self.sets.note_start() {
                let _ = self
                    .sets
                    .improve_start(&mut self.search, &self.lengths, &*workers);
            }
            return Ok(false);
        }
        let ground = Ground::new(&*workers, &self.lengths, &self.sets.movable);
        self.search.begin(&ground, &mut self.sets.start);
        let _ = self.sets.note_start();
        let cost = self
            .sets
            .improve_start(&mut self.search, &self.lengths, &*workers);
        self.begin_root(workers, cost);
        if marked(&self.sets.start) == 1 && !self.lengths.tables.has_limit() {
            return self.begin_single(workers, cost);
        }
        Ok(false)
    }

    /// Takes the best duals for one hub where their bound reaches this cost, and returns whether it does. Where lengths
    /// are rounded, they are made tight at the start set then.
    fn begin_single<R: Threads + Sync>(
        &mut self,
        workers: &PassWorkers<'_, R>,
        cost: i128,
    ) -> Result<bool, AllocError>
        ensures { KeepsShape self.old self.new }
    {
        let (alloc, lengths, state) = (workers.alloc, &self.lengths, &mut self.state);
        let sums = fit_single(alloc, lengths, state, Manner::Bound)?;
        let bound = sums.bound(lengths, &self.node.sides);
        if bound < cost {
            return Ok(false);
        }
        let _ = fit_single(alloc, lengths, state, Manner::Tight)?;
        self.progress.note(bound, NO_GAIN);
        if self.lengths.slack() > 0 {
            copy(&self.sets.start, &mut self.sets.rounded);
            self.finish(workers, cost)?;
        }
        Ok(true)
    }

    /// Starts the root with ramps and caps from the start set, of this cost.
    fn begin_root<R: Threads + Sync>(&mut self, workers: &PassWorkers<'_, R>, cost: i128)
        ensures { KeepsShape self.old self.new }
    {
        let unit = self.lengths.worth();
        self.search.set_caps(&self.lengths, &mut self.node.caps);
        if self.lengths.wanted.is_some() {
            let ground = Ground::new(&*workers, &self.lengths, &self.sets.movable);
            let worth = self.search.hub_worth(&ground, cost);
            let worth = worth.saturating_add(self.lengths.least_fixed);
            let worth = worth.checked_div(unit).unwrap_or(0);
            self.node.hub_worth = worth.clamp(0 - MOST_HUB_WORTH, MOST_HUB_WORTH) as i64;
            for (price, is_hub) in self.node.prices.iter_mut().zip(&self.sets.start) {
                *price = if *is_hub { FULL_PRICE } else { 0 };
            }
        } else if marked(&self.sets.start) == 1 {
            let most = self.search.most_saved(&self.lengths);
            let most = most.checked_div(unit).unwrap_or(0);
            self.node.most_saved = most.clamp(FULL_PRICE as i128, MOST_HUB_WORTH) as i64;
        }
    }

    /// Sets core, ramps and caps of the next pass, for this cutoff.
    pub(crate) fn prepare<R: Threads + Sync>(
        &mut self,
        workers: &PassWorkers<'_, R>,
        wanted: i128,
    ) -> Result<(), AllocError>
        ensures { KeepsShape self.old self.new }
    {
        let passes = self.progress.passes();
        let scale = self.sets.scale(&self.lengths, wanted);
        let gap = self.progress.gap(wanted, scale);
        self.node.is_wide = self.node.is_wide && gap >= WIDE_GAP;
        self.node.coarse = if gap >= COARSE_GAP {
            COARSE
        } else if gap >= LESS_COARSE_GAP && self.progress.is_root {
            LESS_COARSE
        } else {
            0
        };
        self.node.little = self.progress.little(self.lengths.flowing);
        self.node.set_ramps(&self.lengths, None);
        self.choose_core(workers, wanted)?;
        if self.progress.is_root && passes < EARLY_PASSES {
            self.node.set_ramps(&self.lengths, Some(&self.sets.start));
        }
        if !self.progress.is_root || passes == EARLY_PASSES {
            fill(&mut self.node.caps, self.lengths.longest());
        }
        Ok(())
    }

    /// Chooses the core again where that is due, or where another place has a penalty.
    fn choose_core<R: Threads + Sync>(
        &mut self,
        workers: &PassWorkers<'_, R>,
        wanted: i128,
    ) -> Result<(), AllocError>
        ensures { KeepsShape self.old self.new }
    {
        let passes = self.progress.passes();
        let is_due = if self.progress.is_root {
            passes == 1 || passes % ROOT_AGE == EARLY_PASSES
        } else {
            self.node.is_whole() || self.node.age >= MOST_AGE
        };
        self.node.age = self.node.age.saturating_add(1);
        if is_due || self.node.wants_others(&self.state.sums().loads) {
            self.complete(workers)?;
            self.node.age = 1;
            if self.sets.scale(&self.lengths, wanted) >= wanted {
                self.node.choose_core(&self.state.sums().loads, REACH);
            }
        }
        let core = &self.node.core;
        self.bench.renew(workers.alloc, &self.lengths, core)
    }
}

//! One ascent pass: each commodity that takes part makes a step at the penalties of its turn.
//!
//! Origins go one after another, those with the most steps first, and a few are under way at a time. Each starts from
//! the loads that the origins before its window left, and counts its own changes as if some others did the same. So it
//! makes no difference which of those under way ends first, and workers can do them side by side (`sharing`).

ghost use Rattle.dual_ascent.specs.Shapes.{KeepsShape};

use crate::origins::{OriginTerms, Stand};
use crate::schedule::{Window, schedule};
use crate::sharing::better_together;
use crate::state::State;
use crate::sums::Sums;
use crate::waits::{Gain, NO_GAIN, Quote};
use ascent_lengths::{
    LengthTables, Lengths, PassWorkers, add, copy, fill, gather, put, row, row_mut,
};
use dual_flow::{NO_RAMP, NO_TURN, Ramp, Turn};
use std::alloc::{AllocError, Global};
use std::thread::Threads;

/// The core: the places that passes see, ascending, and the tables over them alone, by their indices in the core.
///
/// Most places never get a penalty. Passes that see only those near one have shorter rows. The values of the other
/// places are out of date until they are completed.
#[derive(Drop)]
pub(crate) struct Core {
    pub(crate) places: Vec<usize>,
    pub(crate) tables: LengthTables,
}

/// What a pass reads besides the duals: the instance, the core, the terms over it, the order of the origins, and how
/// many are under way at a time.
#[derive(Clone, Copy)]
pub(crate) struct Pass<'a> {
    pub(crate) lengths: &'a Lengths,
    pub(crate) core: &'a Core,
    pub(crate) terms: OriginTerms<'a>,
    pub(crate) origins: &'a [Turn],
    pub(crate) window: Window,
}

/// The workspace of a pass by one worker: that of an origin, and a row of changes for each origin under way.
#[derive(Drop)]
struct InTurn {
    stand: Stand,
    under_way: Vec<i64>,
}

impl InTurn {
    /// Improves the duals of one origin after another, updates the sums, and returns the gain.
    fn better_all(
        &mut self,
        pass: Pass<'_>,
        quotes: &mut [Quote],
        values: &mut [u32],
        sums: &mut Sums,
    ) -> Gain {
        let lengths = pass.lengths;
        let count = pass.core.places.len();
        let rows = pass.window.origins.max(1);
        fill(&mut self.under_way, 0);
        let mut all = NO_GAIN;
        for (position, turn) in pass.origins.iter().enumerate() {
            let i = turn.place;
            let changes = row_mut(&mut self.under_way, position % rows, count);
            add(changes, &mut sums.loads);
            let gain = self.stand.better(
                pass,
                &sums.loads,
                i,
                row_mut(quotes, i, lengths.size),
                row_mut(values, i, lengths.origin_values()),
            );
            copy(&self.stand.changes, changes);
            sums.total = sums.total.wrapping_add(gain.prices);
            all.add(gain);
        }
        for number in 0..rows {
            add(row(&self.under_way, number, count), &mut sums.loads);
        }
        all
    }
}

/// The workspace of passes: the core with its ramps and loads, the order of the origins, and what one worker needs.
#[derive(Drop)]
pub struct PassSpace {
    core: Core,
    ramps: Vec<Ramp>,
    sums: Sums,
    origins: Vec<Turn>,
    in_turn: InTurn,
}

impl PassSpace {
    /// A workspace for passes that see these places.
    pub fn new(
        alloc: Global,
        lengths: &Lengths,
        places: &[usize],
    ) -> Result<PassSpace, AllocError> {
        let rows = Window::of(lengths.size).origins;
        Ok(PassSpace {
            core: Core {
                places: places.to_vec(alloc)?,
                tables: lengths.tables.over(alloc, places)?,
            },
            ramps: vec![in alloc; NO_RAMP; places.len()]?,
            sums: Sums::new(alloc, places.len())?,
            origins: vec![in alloc; NO_TURN; lengths.size]?,
            in_turn: InTurn {
                stand: Stand::new(alloc, places.len())?,
                under_way: vec![in alloc; 0; rows.wrapping_mul(places.len())]?,
            },
        })
    }

    /// Makes it again where it is not the workspace of these places.
    pub fn renew(
        &mut self,
        alloc: Global,
        lengths: &Lengths,
        places: &[usize],
    ) -> Result<(), AllocError> {
        if self.core.places.as_slice() != places {
            *self = PassSpace::new(alloc, lengths, places)?;
        }
        Ok(())
    }

    /// Copies ramps and sums of the core's places from those of all places.
    fn begin(&mut self, ramps: &[Ramp], sums: &Sums) {
        for (ramp, k) in self.ramps.iter_mut().zip(&self.core.places) {
            *ramp = ramps.get(*k).copied().unwrap_or(NO_RAMP);
        }
        self.sums.total = sums.total;
        gather(&sums.loads, &self.core.places, &mut self.sums.loads);
    }

    /// Copies the sums back to those of all places.
    fn end(&self, sums: &mut Sums) {
        sums.total = self.sums.total;
        for (load, k) in self.sums.loads.iter().zip(&self.core.places) {
            put(&mut sums.loads, *k, *load);
        }
    }
}

impl State {
    /// Makes one ascent pass with at most 64 workers over the places of the core, and returns its gain.
    ///
    /// The result is the same for every number of workers. Where there is no memory for several, one makes the pass.
    pub fn pass<'a, R: Threads + Sync>(
        &mut self,
        workers: &PassWorkers<'_, R>,
        lengths: &'a Lengths,
        terms: OriginTerms<'a>,
        bench: &'a mut PassSpace,
    ) -> Gain
        ensures { KeepsShape self.old self.new }
    {
        schedule(lengths, &self.quotes, &mut bench.origins);
        bench.begin(terms.ramps, &self.sums);
        let pass = Pass {
            lengths,
            core: &bench.core,
            terms: OriginTerms {
                ramps: &bench.ramps,
                ..terms
            },
            origins: &bench.origins,
            window: Window::of(lengths.size),
        };
        let (quotes, values, sums) = (&mut self.quotes, &mut self.values, &mut bench.sums);
        let mut together = Err(AllocError);
        if workers.count > 1 && pass.window.origins > 1 {
            together = better_together(workers, pass, quotes, values, sums);
        }
        let gain = match together {
            Ok(gain) => gain,
            Err(_) => bench.in_turn.better_all(pass, quotes, values, sums),
        };
        bench.end(&mut self.sums);
        gain
    }
}

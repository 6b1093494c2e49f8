//! The duals of all commodities in closed form, by several workers.

ghost use Rattle.dual_ascent.specs.Shapes.{KeepsShape};

use crate::node::Node;
use crate::origins::Origins;
use ascent_lengths::{Lengths, PassWorkers, at, copy, marked, short};
use claim_board::answers;
use dual_ascent::{State, Sums};
use hub_io::OpenGate;
use hub_moves::SetRoutes;
use std::alloc::{AllocError, Global};
use std::thread::Threads;

/// The number of origins for each worker in a batch.
const ORIGINS_AT_ONCE: usize = 4;

/// How duals are computed.
#[derive(Clone, Copy, PartialEq, Eq)]
pub(crate) enum Manner {
    /// Makes those duals tight at the set that are not, over the core alone. Returns an estimate of the bound; the
    /// duals stay as they are.
    Guess,
    /// Makes all duals tight at the set, as close to the present ones as possible. Returns their bound; the duals stay
    /// as they are.
    Bound,
    /// The same, and stores the duals.
    Tight,
    /// Completes the duals: places outside the core get the least values that routes require. Prices stay, and the
    /// duals are stored.
    Whole,
}

impl Manner {
    /// Returns whether the duals are stored.
    pub(crate) fn keeps(self) -> bool {
        self == Manner::Tight || self == Manner::Whole
    }
}

/// The workspace of a fit: the hub set with its routes, the places that are out of date, those that get values, in
/// order, and the sums of the result.
#[derive(Drop)]
pub(crate) struct Fitting {
    marks: Vec<bool>,
    room: usize,
    pub(crate) routes: SetRoutes,
    pub(crate) stale: Vec<usize>,
    pub(crate) asked: Vec<usize>,
    sums: Sums,
}

impl Fitting {
    /// A workspace for this many places.
    pub(crate) fn new(alloc: Global, places: usize) -> Result<Fitting, AllocError> {
        Ok(Fitting {
            marks: vec![in alloc; false; places]?,
            room: 0,
            routes: SetRoutes::new(alloc, 0, 0)?,
            stale: Vec::with_capacity(alloc, places)?,
            asked: Vec::with_capacity(alloc, places)?,
            sums: Sums::new(alloc, places)?,
        })
    }

    /// Sets the hub set. Takes memory only where the set has more hubs than any before.
    pub(crate) fn take(
        &mut self,
        alloc: Global,
        lengths: &Lengths,
        marks: &[bool],
    ) -> Result<(), AllocError> {
        if self.marks.as_slice() == marks {
            return Ok(());
        }
        let hubs = marked(marks);
        if hubs > self.room {
            self.routes = SetRoutes::new(alloc, lengths.size, hubs)?;
            self.room = hubs;
        }
        copy(marks, &mut self.marks);
        self.routes.take(&lengths.tables, marks);
        Ok(())
    }

    /// Lists the places that are out of date, and those that get values, in the node's order. Sums start at 0, for a
    /// guess at the present ones.
    fn begin(&mut self, state: &State, node: &Node, manner: Manner) {
        self.stale.clear();
        self.asked.clear();
        for turn in &node.order {
            let is_stale = !node.core.contains(&turn.place);
            let is_asked = match manner {
                Manner::Whole => is_stale,
                Manner::Guess => !is_stale && !at(&self.marks, turn.place),
                Manner::Bound | Manner::Tight => !at(&self.marks, turn.place),
            };
            // They succeed, since there is room for all places.
            if is_stale {
                let _ = self.stale.push(turn.place);
            }
            if is_asked {
                let _ = self.asked.push(turn.place);
            }
        }
        self.sums.clear();
        if manner == Manner::Guess {
            self.sums.take(state.sums());
        }
    }

    /// Computes the duals in this manner, and returns the bound of the node by them.
    pub(crate) fn fit<R: Threads + Sync>(
        &mut self,
        workers: &PassWorkers<'_, R>,
        lengths: &Lengths,
        state: &mut State,
        node: &Node,
        manner: Manner,
    ) -> Result<i128, AllocError>
        ensures { KeepsShape state.old state.new }
    {
        self.begin(state, node, manner);
        let many = workers.many();
        let batch = (many as usize).wrapping_mul(ORIGINS_AT_ONCE).max(1);
        for number in 0..lengths.size.div_ceil(batch) {
            let first = number.wrapping_mul(batch);
            let origins = Origins {
                lengths,
                fitting: self,
                manner,
                state,
                first,
            };
            let count = short(lengths.size.saturating_sub(first).min(batch));
            let gate = OpenGate;
            let found = answers(workers.rt, workers.alloc, &origins, count, many, &gate)?;
            for (e, duals) in found.iter().enumerate() {
                state.put_origin(first.wrapping_add(e), &duals.prices, &duals.values);
                self.sums.add(&duals.sums);
            }
        }
        let bound = self.sums.bound(lengths, &node.sides);
        if manner.keeps() {
            state.take_sums(&self.sums);
        }
        Ok(bound)
    }
}

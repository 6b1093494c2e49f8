//! The hub sets of a node: the best one found, and those that local searches started from.

use crate::moves::{Ground, LocalSearch};
use ascent_lengths::{Lengths, PassWorkers, copy, fill, marked};
use std::alloc::{AllocError, Global};
use std::thread::Threads;

/// The greatest number of recorded sets.
const MOST_TRIES: usize = 4096;

/// Hub sets as marks: the best one found at a node, the start set, the last rounded set, and the places that may move.
/// `known` is the cost of the best set found at any node, `fixed` the fixed cost of the best known set. Costs are in
/// 10^-12, in the lengths of the heuristic.
#[derive(Drop)]
pub struct Sets {
    /// The best set found at the node.
    pub best: Vec<bool>,
    /// Its cost.
    pub cost: i128,
    /// The cost of the best set found at any node.
    pub known: i128,
    /// The fixed cost of the best known set.
    pub fixed: i128,
    /// The start set.
    pub start: Vec<bool>,
    /// The last rounded set.
    pub rounded: Vec<bool>,
    /// The places that may move.
    pub movable: Vec<bool>,
    // The sets that local searches started from, as bits.
    tries: Vec<[u64; 4]>,
}

impl Sets {
    /// No sets, over this many places.
    pub fn new(alloc: Global, places: usize) -> Result<Sets, AllocError> {
        Ok(Sets {
            best: vec![in alloc; false; places]?,
            cost: i128::MAX,
            known: i128::MAX,
            fixed: 0,
            start: vec![in alloc; false; places]?,
            rounded: vec![in alloc; false; places]?,
            movable: vec![in alloc; false; places]?,
            tries: Vec::new(alloc),
        })
    }

    /// Starts a node, where these hubs are the best known. With `--max-length` a set found before may be infeasible.
    pub fn begin(&mut self, lengths: &Lengths, hubs: &[bool]) {
        fill(&mut self.best, false);
        self.cost = i128::MAX;
        if lengths.tables.has_limit() {
            self.known = i128::MAX;
        }
        self.fixed = lengths.fixed_cost_of(hubs);
    }

    /// Takes the set as the best, if it costs less and has the required number of hubs.
    pub fn offer(&mut self, lengths: &Lengths, marks: &[bool], cost: i128) {
        let fits = lengths.wanted.is_none_or(|hubs| marked(marks) == hubs);
        if fits && cost < self.cost {
            self.cost = cost;
            self.known = self.known.min(cost);
            self.fixed = lengths.fixed_cost_of(marks);
            copy(marks, &mut self.best);
        }
    }

    /// Records the start set, and returns whether it is new.
    pub fn note_start(&mut self) -> bool {
        note(&mut self.tries, &self.start)
    }

    /// Records the rounded set, and returns whether it is new.
    pub fn note_rounded(&mut self) -> bool {
        note(&mut self.tries, &self.rounded)
    }

    /// Improves the start set by local search, offers the result, and starts from it next. Returns its cost.
    pub fn improve_start<R: Threads + Sync>(
        &mut self,
        search: &mut LocalSearch,
        lengths: &Lengths,
        workers: &PassWorkers<'_, R>,
    ) -> i128 {
        let ground = Ground::new(workers, lengths, &self.movable);
        let cost = search.improve(&ground, &self.start);
        self.offer(lengths, search.marks(), cost);
        copy(search.marks(), &mut self.start);
        cost
    }

    /// Improves the rounded set by local search, and offers the result.
    pub fn improve_rounded<R: Threads + Sync>(
        &mut self,
        search: &mut LocalSearch,
        lengths: &Lengths,
        workers: &PassWorkers<'_, R>,
    ) {
        let ground = Ground::new(workers, lengths, &self.movable);
        let cost = search.improve(&ground, &self.rounded);
        self.offer(lengths, search.marks(), cost);
    }

    /// The scale of gaps, for a best known set of this cost: the cost, or eight times its fixed costs, if these are a
    /// small part of it.
    pub fn scale(&self, lengths: &Lengths, cost: i128) -> i128 {
        if lengths.wanted.is_some() {
            return cost.max(1);
        }
        cost.min(self.fixed.saturating_mul(8))
            .max(cost >> 30)
            .max(1)
    }
}

/// Records the marked set, as bits of up to 256 places, and returns whether it is new. Where memory runs out it is not
/// recorded.
fn note(tries: &mut Vec<[u64; 4]>, marks: &[bool]) -> bool {
    let mut words = [0u64; 4];
    for (k, mark) in marks.iter().enumerate() {
        if *mark && k < 256 {
            words[k / 64] |= 1 << (k % 64);
        }
    }
    let is_new = !tries.contains(&words);
    if is_new && tries.len() < MOST_TRIES {
        let _ = tries.push(words);
    }
    is_new
}

//! Local search over hub sets: opens, closes or swaps hubs while that costs less. For exactly p hubs it only swaps.

use crate::openings::{Move, OpenSet, Opening, Openings};
use ascent_lengths::{Lengths, PassWorkers, at, copy, fill, put, row_mut};
use std::alloc::{AllocError, Global};
use std::thread::Threads;

/// The greatest number of rounds of a search.
const MOST_ROUNDS: usize = 100;

/// The input of a local search: workers, instance, and the places that may be opened or closed.
#[derive(Drop)]
pub struct Ground<'a, R> {
    workers: &'a PassWorkers<'a, R>,
    lengths: &'a Lengths,
    movable: &'a [bool],
}

impl<'a, R> Ground<'a, R> {
    /// The input with these parts.
    pub fn new(
        workers: &'a PassWorkers<'a, R>,
        lengths: &'a Lengths,
        movable: &'a [bool],
    ) -> Ground<'a, R> {
        Ground {
            workers,
            lengths,
            movable,
        }
    }
}

/// A local search: the set, and the workspace of a candidate.
#[derive(Drop)]
pub struct LocalSearch {
    set: OpenSet,
    opening: Opening,
}

impl LocalSearch {
    /// A local search for this many nodes and places.
    pub fn new(alloc: Global, size: usize, places: usize) -> Result<LocalSearch, AllocError> {
        Ok(LocalSearch {
            set: OpenSet::new(alloc, size, places)?,
            opening: Opening::new(alloc, size, places)?,
        })
    }

    /// The set that was found last.
    pub fn marks(&self) -> &[bool] {
        &self.set.marks
    }

    /// The cost of the set, in 10^-12. An empty set costs `i128::MAX`.
    pub fn cost(&mut self, lengths: &Lengths, marks: &[bool]) -> i128 {
        copy(marks, &mut self.set.marks);
        self.set.set_routes(lengths);
        self.set.close(lengths, None);
        self.set.cost(lengths)
    }

    /// Improves the set by moves of the movable places, and returns its cost, in 10^-12.
    pub fn improve<R: Threads + Sync>(&mut self, ground: &Ground<'_, R>, marks: &[bool]) -> i128 {
        let lengths = ground.lengths;
        let mut cost = self.cost(lengths, marks);
        for _ in 0..MOST_ROUNDS {
            let before = cost;
            if lengths.wanted.is_none() {
                cost = self.open_all(ground, cost);
            }
            for h in 0..lengths.places {
                if at(&self.set.marks, h) && at(ground.movable, h) {
                    cost = self.turn(ground, Some(h), cost);
                }
            }
            if cost >= before {
                break;
            }
        }
        cost
    }

    /// Greedy start: replaces the marks by hubs that are opened one by one, each the cheapest to open then. For exactly
    /// p hubs it opens p of them. Else it goes on while the cost falls, and keeps the marked set if that is cheaper.
    pub fn begin<R: Threads + Sync>(&mut self, ground: &Ground<'_, R>, marks: &mut [bool]) {
        let lengths = ground.lengths;
        let least = self.cost(lengths, marks);
        fill(&mut self.set.marks, false);
        self.set.set_routes(lengths);
        let Some(hubs) = lengths.wanted else {
            if self.open_all(ground, i128::MAX) <= least {
                copy(&self.set.marks, marks);
            }
            return;
        };
        for _ in 0..hubs {
            let _ = self.turn(ground, None, i128::MAX);
        }
        copy(&self.set.marks, marks);
    }

    /// The worth of one hub at the set that was found last, of this cost: the mean of the least rise with one hub less
    /// and the greatest fall with one more, or one of the two where the other is impossible. In 10^-12.
    pub fn hub_worth<R: Threads + Sync>(&mut self, ground: &Ground<'_, R>, cost: i128) -> i128 {
        let lengths = ground.lengths;
        let mut least = i128::MAX;
        for h in 0..lengths.places {
            if at(&self.set.marks, h) {
                self.set.close(lengths, Some(h));
                least = least.min(self.set.cost(lengths));
            }
        }
        let rise = least.wrapping_sub(cost);
        self.set.close(lengths, None);
        let opened = self.best_move(ground, i128::MAX);
        let fall = cost.wrapping_sub(opened.cost);
        match (least < i128::MAX, opened.open.is_some()) {
            (true, true) => rise.wrapping_add(fall) / 2,
            (true, false) => rise,
            (false, _) => fall,
        }
    }

    /// The greatest fall of the routing cost by one hub more than the set that was found last, in 10^-12.
    pub fn most_saved(&mut self, lengths: &Lengths) -> i128 {
        self.set.close(lengths, None);
        let routes = self.set.routes_cost(lengths);
        let openings = Openings {
            lengths,
            movable: &[],
            set: &self.set,
            fixed: 0,
        };
        let mut most = 0;
        for k in 0..lengths.places {
            most = routes
                .wrapping_sub(self.opening.routes_cost(&openings, k))
                .max(most);
        }
        most
    }

    /// Sets the cap of each commodity's price, at most the greatest price. The cap is the greater of two lengths over
    /// the set that was found last: without the first hub of the commodity's route over it, and without the last.
    pub fn set_caps(&self, lengths: &Lengths, caps: &mut [u32]) {
        for i in 0..lengths.size {
            for (j, cap) in row_mut(caps, i, lengths.size).iter_mut().enumerate() {
                let detours = self.set.routes.detours(&lengths.tables, i, j);
                let most = detours.without_first.max(detours.without_last);
                *cap = most.min(lengths.longest());
            }
        }
    }

    /// Opens hubs while the cost falls, and returns the cost.
    fn open_all<R: Threads + Sync>(&mut self, ground: &Ground<'_, R>, cost: i128) -> i128 {
        let mut cost = cost;
        for _ in 0..ground.lengths.places {
            let opened = self.turn(ground, None, cost);
            if opened >= cost {
                break;
            }
            cost = opened;
        }
        cost
    }

    /// Makes the best move that closes this hub, or none, if the cost falls, and returns the cost.
    fn turn<R: Threads + Sync>(
        &mut self,
        ground: &Ground<'_, R>,
        closed: Option<usize>,
        cost: i128,
    ) -> i128 {
        let lengths = ground.lengths;
        self.set.close(lengths, closed);
        let found = self.best_move(ground, cost);
        if found.cost < cost {
            if let Some(h) = closed {
                put(&mut self.set.marks, h, false);
            }
            if let Some(k) = found.open {
                put(&mut self.set.marks, k, true);
            }
            self.set.set_routes(lengths);
        }
        found.cost
    }

    /// The best move from the set without its closed hub, where the set costs this much.
    fn best_move<R: Threads + Sync>(&mut self, ground: &Ground<'_, R>, cost: i128) -> Move {
        let lengths = ground.lengths;
        let mut best = Move { open: None, cost };
        if self.set.closed.is_some() && lengths.wanted.is_none() {
            best.cost = cost.min(self.set.cost(lengths));
        }
        let openings = Openings {
            lengths,
            movable: ground.movable,
            set: &self.set,
            fixed: self.set.fixed_cost(lengths),
        };
        openings.best(ground.workers, &mut self.opening, best)
    }
}

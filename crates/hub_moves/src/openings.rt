//! The cost of a hub set with one more hub. Workers try the candidates in blocks.

use crate::routes::{NO_ROUTE, SetRoutes, ShortRoute};
use ascent_lengths::{
    CommodityLengths, FAR, Lengths, PassWorkers, at, fill, least_sum, put, row, row_mut, short,
};
use claim_board::{Job, answers};
use hub_io::OpenGate;
use std::alloc::{AllocError, Global};
use std::thread::Threads;

/// The number of places in a block.
const PLACES_AT_ONCE: usize = 16;

/// Below this many nodes one worker tries all places: starting more costs more than they save.
const LEAST_NODES: usize = 100;

/// A move: the place to open, if any, and the cost of the set after it, in 10^-12.
#[derive(Clone, Copy)]
pub(crate) struct Move {
    pub(crate) open: Option<usize>,
    pub(crate) cost: i128,
}

/// The lengths of some commodities' routes: the sum of flow times length, and how many have flow and no route.
#[derive(Clone, Copy)]
struct Tally {
    sum: u64,
    lacked: u64,
}

impl Tally {
    fn add(&mut self, flow: u32, length: u32) {
        self.sum = self
            .sum
            .wrapping_add((flow as u64).wrapping_mul(length as u64));
        self.lacked = self.lacked.wrapping_add((flow > 0 && length >= FAR) as u64);
    }

    /// The cost, in 10^-12. A commodity without a route adds more than any feasible set costs.
    fn cost(self, lengths: &Lengths) -> i128 {
        let lacking = (self.lacked as i128).wrapping_mul(lengths.lack_cost);
        (self.sum as i128)
            .wrapping_mul(lengths.worth())
            .wrapping_add(lacking)
    }
}

/// A hub set as marks, with its routes and the shortest one of each commodity. One of its hubs may be closed: `base` has
/// the lengths over the others.
#[derive(Drop)]
pub(crate) struct OpenSet {
    pub(crate) marks: Vec<bool>,
    pub(crate) routes: SetRoutes,
    shortest: Vec<ShortRoute>,
    pub(crate) closed: Option<usize>,
    base: Vec<u32>,
}

impl OpenSet {
    /// An empty set for this many nodes and places.
    pub(crate) fn new(alloc: Global, size: usize, places: usize) -> Result<OpenSet, AllocError> {
        let cells = size.wrapping_mul(size);
        Ok(OpenSet {
            marks: vec![in alloc; false; places]?,
            routes: SetRoutes::new(alloc, size, places)?,
            shortest: vec![in alloc; NO_ROUTE; cells]?,
            closed: None,
            base: vec![in alloc; FAR; cells]?,
        })
    }

    /// Computes the shortest routes over the marked places.
    pub(crate) fn set_routes(&mut self, lengths: &Lengths) {
        self.routes.take(&lengths.tables, &self.marks);
        for i in 0..lengths.size {
            let routes = row_mut(&mut self.shortest, i, lengths.size);
            for (j, route) in routes.iter_mut().enumerate() {
                *route = self.routes.shortest(&lengths.tables, i, j);
            }
        }
    }

    /// Closes this hub alone, or none.
    pub(crate) fn close(&mut self, lengths: &Lengths, closed: Option<usize>) {
        self.closed = closed;
        for i in 0..lengths.size {
            let base = row_mut(&mut self.base, i, lengths.size);
            let routes = base.iter_mut().zip(row(&self.shortest, i, lengths.size));
            for (j, (length, route)) in routes.enumerate() {
                *length = match closed {
                    Some(h) if route.first == h || route.last == h => {
                        self.routes.without(&lengths.tables, [i, j], [h, h]).length
                    }
                    _ => route.length,
                };
            }
        }
    }

    /// The routing cost without the closed hub, in 10^-12.
    pub(crate) fn routes_cost(&self, lengths: &Lengths) -> i128 {
        let mut tally = Tally { sum: 0, lacked: 0 };
        for i in 0..lengths.size {
            let base = row(&self.base, i, lengths.size);
            for (flow, length) in lengths.flows(i).iter().zip(base) {
                tally.add(*flow, *length);
            }
        }
        tally.cost(lengths)
    }

    /// The fixed costs without the closed hub, in 10^-12.
    pub(crate) fn fixed_cost(&self, lengths: &Lengths) -> i128 {
        let closed = self.closed.map_or(0, |h| at(&lengths.fixed_costs, h));
        lengths.fixed_cost_of(&self.marks).wrapping_sub(closed)
    }

    /// The cost without the closed hub, in 10^-12; `i128::MAX` if no hub is left.
    pub(crate) fn cost(&self, lengths: &Lengths) -> i128 {
        if self.routes.hubs().len() <= self.closed.is_some() as usize {
            return i128::MAX;
        }
        self.routes_cost(lengths)
            .wrapping_add(self.fixed_cost(lengths))
    }
}

/// The workspace of a candidate: the trunk legs from it to the hubs and back; for each destination the shortest way
/// onward from it, and the delivery leg from it.
#[derive(Drop)]
pub(crate) struct Opening {
    to_hubs: Vec<u32>,
    from_hubs: Vec<u32>,
    onward: Vec<u32>,
    last: Vec<u32>,
}

impl Opening {
    /// A workspace for this many nodes and places.
    pub(crate) fn new(alloc: Global, size: usize, places: usize) -> Result<Opening, AllocError> {
        let width = places.div_ceil(8).wrapping_mul(8);
        Ok(Opening {
            to_hubs: vec![in alloc; FAR; width]?,
            from_hubs: vec![in alloc; FAR; width]?,
            onward: vec![in alloc; FAR; size]?,
            last: vec![in alloc; FAR; size]?,
        })
    }

    /// Sets, for each destination, the shortest way onward from the place, by a hub other than the closed one or
    /// directly.
    fn set_ways(&mut self, openings: &Openings<'_, '_>, k: usize) {
        let (legs, routes) = (&openings.lengths.tables.legs, &openings.set.routes);
        fill(&mut self.to_hubs, FAR);
        fill(&mut self.from_hubs, FAR);
        for (e, h) in routes.hubs().iter().enumerate() {
            if openings.set.closed != Some(*h) {
                put(&mut self.to_hubs, e, at(legs.trunk.row(k), *h));
                put(&mut self.from_hubs, e, at(legs.trunk_back.row(k), *h));
            }
        }
        for (j, (onward, last)) in self.onward.iter_mut().zip(self.last.iter_mut()).enumerate() {
            *last = at(legs.deliver.row(j), k);
            *onward = least_sum(&self.to_hubs, routes.deliver.row(j)).min(*last);
        }
    }

    /// The routing cost with the place opened, in 10^-12.
    pub(crate) fn routes_cost(&mut self, openings: &Openings<'_, '_>, k: usize) -> i128 {
        self.set_ways(openings, k);
        let (lengths, set) = (openings.lengths, openings.set);
        let mut tally = Tally { sum: 0, lacked: 0 };
        for i in 0..lengths.size {
            let (flows, base) = (lengths.flows(i), row(&set.base, i, lengths.size));
            let leg = at(lengths.tables.legs.collect.row(i), k);
            let turned = least_sum(&self.from_hubs, set.routes.collect.row(i)).min(leg);
            if !lengths.tables.has_limit() {
                let sum = self.weighed(flows, base, [leg, turned]);
                tally.sum = tally.sum.wrapping_add(sum);
                continue;
            }
            for (j, (flow, now)) in flows.iter().zip(base).enumerate() {
                let forth = leg.wrapping_add(at(&self.onward, j));
                let least = turned.wrapping_add(at(&self.last, j)).min(forth);
                let length = if *flow > 0 && least < *now {
                    openings.length_with([i, j], k, least).min(*now)
                } else {
                    *now
                };
                tally.add(*flow, length);
            }
        }
        tally.cost(lengths)
    }

    /// The sum of the flows of an origin times the least of three lengths: the present one, and two by way of the place,
    /// to which two ways from the origin have these lengths.
    fn weighed(&self, flows: &[u32], now: &[u32], ways: [u32; 2]) -> u64 {
        let (onward, last) = (self.onward.as_slice(), self.last.as_slice());
        let count = flows.len().min(now.len()).min(onward.len()).min(last.len());
        let mut sum = 0u64;
        for j in 0..count {
            let forth = ways[0].wrapping_add(onward[j]);
            let back = ways[1].wrapping_add(last[j]);
            let length = now[j].min(forth).min(back);
            sum = sum.wrapping_add((length as u64).wrapping_mul(flows[j] as u64));
        }
        sum
    }
}

/// The openings of a hub set without its closed hub: the movable places that are not hubs. `fixed` is the fixed cost of
/// the remaining hubs, in 10^-12. A block is some consecutive places.
#[derive(Clone, Copy)]
pub(crate) struct Openings<'a, 'b> {
    pub(crate) lengths: &'a Lengths,
    pub(crate) movable: &'a [bool],
    pub(crate) set: &'b OpenSet,
    pub(crate) fixed: i128,
}

impl<'a, 'b> Openings<'a, 'b> {
    /// The best of the given move and all openings, the first of equal ones, by several workers.
    pub(crate) fn best<R: Threads + Sync>(
        &self,
        workers: &PassWorkers<'_, R>,
        opening: &mut Opening,
        best: Move,
    ) -> Move {
        let (alloc, count) = (workers.alloc, workers.many());
        let blocks = short(self.lengths.places.div_ceil(PLACES_AT_ONCE));
        let mut best = best;
        if count > 1 && self.lengths.size >= LEAST_NODES {
            if let Ok(found) = answers(workers.rt, alloc, self, blocks, count, &OpenGate) {
                for other in &found {
                    if other.cost < best.cost {
                        best = *other;
                    }
                }
                return best;
            }
        }
        for block in 0..blocks {
            best = self.best_of(opening, block, best);
        }
        best
    }

    /// The best of the given move and the openings of a block, the first of equal ones.
    fn best_of(&self, opening: &mut Opening, block: u32, best: Move) -> Move {
        let lengths = self.lengths;
        let first = (block as usize).wrapping_mul(PLACES_AT_ONCE);
        let mut best = best;
        for k in first..first.wrapping_add(PLACES_AT_ONCE).min(lengths.places) {
            if at(self.movable, k) && !at(&self.set.marks, k) {
                let fixed = self.fixed.wrapping_add(at(&lengths.fixed_costs, k));
                let cost = opening.routes_cost(self, k).wrapping_add(fixed);
                if cost < best.cost {
                    best = Move {
                        open: Some(k),
                        cost,
                    };
                }
            }
        }
        best
    }

    /// The length of the shortest allowed route of a commodity over the place, alone or with a hub other than the closed
    /// one. No route over the place is shorter than `least`.
    fn length_with(&self, from: [usize; 2], k: usize, least: u32) -> u32 {
        let legs = CommodityLengths::of(&self.lengths.tables, from[0], from[1]);
        if legs.is_safe(least.wrapping_add(1)) {
            return least;
        }
        let (onward, before) = (legs.onward(k), legs.before(k));
        let mut length = legs.alone(k);
        for m in self.set.routes.hubs() {
            if self.set.closed != Some(*m) {
                length = length.min(onward.length(*m)).min(before.length(*m));
            }
        }
        length
    }
}

impl<'a, 'b> Job<Move> for Openings<'a, 'b> {
    type Scratch = Opening;

    ghost answer = { λ job block found. Unit {0} };

    ghost accepts = { λ job block. Unit {0} };

    ghost serves = { λ job opening. Unit {0} };

    fn new_scratch(&self, alloc: Global) -> Result<Opening, AllocError> {
        Opening::new(alloc, self.lengths.size, self.lengths.places)
    }

    fn at(&self, _alloc: Global, opening: &mut Opening, block: u32) -> Result<Move, AllocError> {
        let none = Move {
            open: None,
            cost: i128::MAX,
        };
        Ok(self.best_of(opening, block, none))
    }
}

//! The minimum-cost flow whose dual is the best dual of a commodity.
//!
//! Each priced place has two copies: a left one, fed by the source, and a right one, which feeds the sink. The penalty
//! of the place is the capacity of each. An arc from left to right is a pair of hubs and costs the route's length. One
//! more copy on either side has no limit; the arcs to it are single hubs. Two full units are sent along shortest paths,
//! as long as a path is cheaper than the cap. Then the value of a place is half the sum of the potentials of its two
//! copies.

use crate::ways::FlowPath;
use ascent_lengths::{NONE, at, fill, lower, lower_reduced, put, raise, row, row_mut, small};
use std::alloc::{AllocError, Global};

/// The penalty of a place that is fully open: one full unit of flow.
pub const FULL_PRICE: i64 = 1 << 12;

/// The number of a copy that was not reached.
const NEVER: i32 = i32::MAX;
/// A mask over the distance of a copy that is settled: with these bits set no distance is less.
const SHUT: i32 = i32::MAX;
/// A limit on the number of augmenting paths.
const MOST_WAYS: usize = 100_000;

/// The copies of the places on one side. Of a shortest-path search it has each copy's distance, and the number in which
/// it was reached (0: from the source).
#[derive(Drop)]
pub(crate) struct Copies {
    pub(crate) capacities: Vec<i32>,
    pub(crate) potentials: Vec<i32>,
    distances: Vec<i32>,
    pub(crate) turns: Vec<i32>,
}

impl Copies {
    fn new(alloc: Global, room: usize) -> Result<Copies, AllocError> {
        Ok(Copies {
            capacities: vec![in alloc; 0; room]?,
            potentials: vec![in alloc; 0; room]?,
            distances: vec![in alloc; 0; room]?,
            turns: vec![in alloc; 0; room]?,
        })
    }

    /// Clears potentials and capacities of this many copies.
    fn clear(&mut self, width: usize) {
        fill(row_mut(&mut self.potentials, 0, width), 0);
        fill(row_mut(&mut self.capacities, 0, width), 0);
    }

    /// Raises each of this many potentials by its distance, but by no more than the sink's.
    fn raise(&mut self, width: usize, most: i32) {
        let potentials = row_mut(&mut self.potentials, 0, width);
        raise(potentials, &self.distances, most);
    }
}

/// The network: the copies of both sides, the arc costs and the flow.
///
/// Flows stand in the row of the right copy, and `feeders` has a bit for each left copy with flow to it. `base` has the
/// least arc costs from left copies with capacity left, if `has_base`. In a search `shut` masks the distances of settled
/// right copies, and `before` is the right copy before a left one.
#[derive(Drop)]
pub(crate) struct Network {
    count: usize,
    pub(crate) width: usize,
    words: usize,
    costs: Vec<i32>,
    flows: Vec<i32>,
    feeders: Vec<u64>,
    base: Vec<i32>,
    pub(crate) has_base: bool,
    pub(crate) left: Copies,
    pub(crate) right: Copies,
    shut: Vec<i32>,
    pub(crate) before: Vec<usize>,
}

impl Network {
    /// A network with room for this many places.
    pub(crate) fn new(alloc: Global, places: usize) -> Result<Network, AllocError> {
        let room = places.wrapping_add(1).div_ceil(8).wrapping_mul(8);
        let cells = room.wrapping_mul(room);
        Ok(Network {
            count: 0,
            width: 0,
            words: 0,
            costs: vec![in alloc; NONE; cells]?,
            flows: vec![in alloc; 0; cells]?,
            feeders: vec![in alloc; 0; room.wrapping_mul(room.div_ceil(64))]?,
            base: vec![in alloc; NONE; room]?,
            has_base: false,
            left: Copies::new(alloc, room)?,
            right: Copies::new(alloc, room)?,
            shut: vec![in alloc; 0; room]?,
            before: vec![in alloc; 0; room]?,
        })
    }

    /// Starts a network of this many places, without arcs.
    pub(crate) fn begin(&mut self, places: usize) {
        self.count = places.wrapping_add(1);
        self.width = self.count.div_ceil(8).wrapping_mul(8);
        self.words = self.count.div_ceil(64);
        let cells = self.width.wrapping_mul(self.width);
        fill(row_mut(&mut self.flows, 0, cells), 0);
        let words = self.count.wrapping_mul(self.words);
        fill(row_mut(&mut self.feeders, 0, words), 0);
        self.has_base = false;
        self.left.clear(self.width);
        self.right.clear(self.width);
        fill(row_mut(&mut self.costs, places, self.width), NONE);
        self.limit(places, 4 * FULL_PRICE as i32);
    }

    /// Sets the capacity of both copies of a place.
    pub(crate) fn limit(&mut self, x: usize, capacity: i32) {
        put(&mut self.left.capacities, x, capacity);
        put(&mut self.right.capacities, x, capacity);
    }

    /// The costs of the arcs from a place to this many places.
    pub(crate) fn costs_mut(&mut self, x: usize, places: usize) -> &mut [i32] {
        row_mut(row_mut(&mut self.costs, x, self.width), 0, places)
    }

    /// Sets the cost of both arcs of a place as a single hub, and ends its row after this many places.
    pub(crate) fn end_row(&mut self, x: usize, places: usize, alone: u32) {
        let row = row_mut(&mut self.costs, x, self.width);
        if let Some(rest) = row.get_mut(places..) {
            fill(rest, NONE);
        }
        put(row, x, NONE);
        put(row, places, small(alone));
        put(
            row_mut(&mut self.costs, places, self.width),
            x,
            small(alone),
        );
    }

    /// Sends two full units of flow, and returns the potential of the sink, at most the cap.
    pub(crate) fn solve(&mut self, cap: u32, way: &mut FlowPath) -> u32 {
        let mut sink = 0;
        let mut wanted = 2 * FULL_PRICE as i32;
        for _ in 0..MOST_WAYS {
            let (distance, last) = self.search(sink, small(cap));
            self.left.raise(self.width, distance);
            self.right.raise(self.width, distance);
            sink = distance.wrapping_add(sink);
            let Some(last) = last else { break };
            let sent = way.send(self, last, sink, wanted);
            wanted = wanted.wrapping_sub(sent);
            if sent <= 0 || wanted <= 0 {
                break;
            }
        }
        sink.max(0) as u32
    }

    /// The value of a place: half the sum of its copies' potentials, where the sink's is `price`.
    pub(crate) fn value(&self, x: usize, price: u32) -> u32 {
        let right = price.saturating_sub(at(&self.right.potentials, x).max(0) as u32);
        let left = at(&self.left.potentials, x).max(0) as u32;
        left.wrapping_add(right).div_ceil(2)
    }

    /// Finds the shortest path to the sink: its distance, and the right copy before it, if the path is cheaper than the
    /// cap.
    fn search(&mut self, sink: i32, cap: i32) -> (i32, Option<usize>) {
        self.leave_source();
        let mut turn = 1;
        let mut end = (cap.wrapping_sub(sink), None);
        for _ in 0..self.count {
            let Some(m) = self.nearest(end.0) else {
                break;
            };
            let near = at(&self.right.distances, m);
            put(&mut self.right.turns, m, turn);
            put(&mut self.shut, m, SHUT);
            let potential = at(&self.right.potentials, m);
            let distance = near.wrapping_add(potential).wrapping_sub(sink);
            if at(&self.right.capacities, m) > 0 && distance < end.0 {
                end = (distance, Some(m));
            }
            turn = self.go_back(m, near, turn.wrapping_add(1));
        }
        end
    }

    /// Starts a search from the left copies with capacity left.
    fn leave_source(&mut self) {
        if !self.has_base {
            self.set_base();
        }
        let width = self.width;
        let distances = row_mut(&mut self.right.distances, 0, width);
        fill(distances, NONE);
        lower_reduced(distances, 0, &self.base, &self.right.potentials);
        fill(row_mut(&mut self.shut, 0, width), 0);
        fill(row_mut(&mut self.right.turns, 0, width), NEVER);
        let rooms = row(&self.left.capacities, 0, width);
        set_where_room(rooms, NONE, &mut self.left.distances);
        set_where_room(rooms, NEVER, &mut self.left.turns);
    }

    /// Finds the least arc costs from left copies with capacity left.
    fn set_base(&mut self) {
        let base = row_mut(&mut self.base, 0, self.width);
        fill(base, NONE);
        for x in 0..self.count {
            if at(&self.left.capacities, x) > 0 {
                lower(base, row(&self.costs, x, self.width));
            }
        }
        self.has_base = true;
    }

    /// The nearest right copy that is not settled, if one is nearer than the limit.
    fn nearest(&self, limit: i32) -> Option<usize> {
        let distances = row(&self.right.distances, 0, self.width);
        let shut = self.shut.as_slice();
        let count = distances.len().min(shut.len());
        let mut least = limit;
        for index in 0..count {
            least = least.min(distances[index] | shut[index]);
        }
        if least >= limit {
            return None;
        }
        let (mut first, mut number) = (NONE, 0i32);
        for index in 0..count {
            let is_least = distances[index] | shut[index] == least;
            first = first.min(if is_least { number } else { NONE });
            number = number.wrapping_add(1);
        }
        Some(first.max(0) as usize)
    }

    /// Follows flow backwards from a right copy to left ones that were not reached, and relaxes the arcs of these.
    /// Returns the next number.
    fn go_back(&mut self, m: usize, near: i32, turn: i32) -> i32 {
        let mut turn = turn;
        for word in 0..self.words {
            let mut bits = at(row(&self.feeders, m, self.words), word);
            // A word has so many bits at most.
            for _ in 0..64 {
                if bits == 0 {
                    break;
                }
                let bit = bits.trailing_zeros() as usize;
                let x = word.wrapping_mul(64).wrapping_add(bit);
                bits &= bits.wrapping_sub(1);
                if at(&self.left.turns, x) == NEVER {
                    put(&mut self.left.distances, x, near);
                    put(&mut self.left.turns, x, turn);
                    put(&mut self.before, x, m);
                    turn = turn.wrapping_add(1);
                    self.go_on(x, near);
                }
            }
        }
        turn
    }

    /// Relaxes the arcs from a left copy to all right ones.
    fn go_on(&mut self, x: usize, distance: i32) {
        let base = distance.wrapping_add(at(&self.left.potentials, x));
        let distances = row_mut(&mut self.right.distances, 0, self.width);
        let costs = row(&self.costs, x, self.width);
        lower_reduced(distances, base, costs, &self.right.potentials);
    }

    /// A left copy that was reached before the right one, with a tight arc to it.
    pub(crate) fn tight(&self, m: usize) -> Option<usize> {
        let turn = at(&self.right.turns, m);
        let potential = at(&self.right.potentials, m);
        let costs = row(&self.costs, m, self.width);
        let there = self.left.potentials.as_slice();
        let reached = self.left.turns.as_slice();
        let count = costs.len().min(there.len()).min(reached.len());
        let (mut first, mut number) = (NONE, 0i32);
        for x in 0..count {
            let is_tight = there[x].wrapping_add(costs[x]) == potential;
            let is_before = reached[x] < turn;
            first = first.min(if is_tight & is_before { number } else { NONE });
            number = number.wrapping_add(1);
        }
        if first == NONE {
            return None;
        }
        Some(first.max(0) as usize)
    }

    /// Returns whether the arc from a left copy to a right one is tight.
    pub(crate) fn is_tight(&self, x: usize, m: usize) -> bool {
        let cost = at(row(&self.costs, x, self.width), m);
        cost.wrapping_add(at(&self.left.potentials, x)) == at(&self.right.potentials, m)
    }

    /// The flow from a left copy to a right one.
    pub(crate) fn flow(&self, x: usize, m: usize) -> i32 {
        at(row(&self.flows, m, self.width), x)
    }

    /// Adds to the flow from a left copy to a right one.
    pub(crate) fn shift(&mut self, x: usize, m: usize, amount: i32) {
        let flow = self.flow(x, m).wrapping_add(amount);
        put(row_mut(&mut self.flows, m, self.width), x, flow);
        if let Some(word) = row_mut(&mut self.feeders, m, self.words).get_mut(x / 64) {
            let bit = 1 << (x % 64);
            *word = if flow > 0 { *word | bit } else { *word & !bit };
        }
    }
}

/// Sets each item to 0 where capacity is left, else to `elsewhere`.
fn set_where_room(rooms: &[i32], elsewhere: i32, into: &mut [i32]) {
    let count = rooms.len().min(into.len());
    for x in 0..count {
        into[x] = if rooms[x] > 0 { 0 } else { elsewhere };
    }
}

//! Augmenting paths through the network.
//!
//! Lengths and the capacities of both copies of a place are often symmetric. Then the reverse path, with left and right
//! swapped, is as cheap as the path that was found, and is tried at once.

use crate::network::Network;
use ascent_lengths::{at, put};
use std::alloc::{AllocError, Global};

/// An arc from a left copy to a right one.
#[derive(Clone, Copy)]
struct Arc {
    from: usize,
    to: usize,
}

/// The arcs of a path from the source to the sink, the last one first. Between two arcs flow is taken back.
#[derive(Drop)]
pub(crate) struct FlowPath {
    arcs: Vec<Arc>,
}

impl FlowPath {
    /// An empty path with room for this many places.
    pub(crate) fn new(alloc: Global, places: usize) -> Result<FlowPath, AllocError> {
        Ok(FlowPath {
            arcs: Vec::with_capacity(alloc, places.saturating_add(2))?,
        })
    }

    /// Augments along the path that was found to the right copy `last`, and along its reverse if that is as cheap.
    /// Returns the flow that was sent, at most `wanted`.
    pub(crate) fn send(&mut self, net: &mut Network, last: usize, sink: i32, wanted: i32) -> i32 {
        if !self.trace(net, last) {
            return 0;
        }
        let sent = self.augment(net, wanted);
        self.turn();
        if sent == 0 || !self.is_cheapest(net, sink) {
            return sent;
        }
        sent.wrapping_add(self.augment(net, wanted.wrapping_sub(sent)))
    }

    /// Traces the path back from a right copy to the source, and returns whether there is one.
    fn trace(&mut self, net: &Network, last: usize) -> bool {
        self.arcs.clear();
        let mut to = last;
        for _ in 0..net.width {
            let Some(from) = net.tight(to) else {
                return false;
            };
            // It succeeds, since there is room for all copies.
            let _ = self.arcs.push(Arc { from, to });
            if at(&net.left.turns, from) == 0 {
                return true;
            }
            to = at(&net.before, from);
        }
        false
    }

    /// Sends flow along the path, as much as its capacity and at most this much. Returns how much.
    fn augment(&self, net: &mut Network, most: i32) -> i32 {
        let (Some(last), Some(first)) = (self.arcs.first(), self.arcs.last()) else {
            return 0;
        };
        let amount = self.room(net, most);
        if amount <= 0 {
            return 0;
        }
        let mut back = None;
        for arc in &self.arcs {
            if let Some(from) = back {
                net.shift(from, arc.to, 0i32.wrapping_sub(amount));
            }
            net.shift(arc.from, arc.to, amount);
            back = Some(arc.from);
        }
        let left = at(&net.right.capacities, last.to).wrapping_sub(amount);
        put(&mut net.right.capacities, last.to, left);
        let left = at(&net.left.capacities, first.from).wrapping_sub(amount);
        put(&mut net.left.capacities, first.from, left);
        net.has_base &= left > 0;
        amount
    }

    /// The capacity of the path, at most `most`.
    fn room(&self, net: &Network, most: i32) -> i32 {
        let mut amount = most;
        let mut back = None;
        for arc in &self.arcs {
            amount = amount.min(match back {
                None => at(&net.right.capacities, arc.to),
                Some(from) => net.flow(from, arc.to),
            });
            back = Some(arc.from);
        }
        amount.min(back.map_or(0, |first| at(&net.left.capacities, first)))
    }

    /// Reverses the path: each left copy becomes the right one of its place, and the other way round.
    fn turn(&mut self) {
        self.arcs.reverse();
        for arc in self.arcs.iter_mut() {
            (arc.from, arc.to) = (arc.to, arc.from);
        }
    }

    /// Returns whether no path to the sink, of this potential, is cheaper than this one.
    fn is_cheapest(&self, net: &Network, sink: i32) -> bool {
        let (Some(last), Some(first)) = (self.arcs.first(), self.arcs.last()) else {
            return false;
        };
        at(&net.left.potentials, first.from) == 0
            && at(&net.right.potentials, last.to) == sink
            && self.arcs.iter().all(|arc| net.is_tight(arc.from, arc.to))
    }
}

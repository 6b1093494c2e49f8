//! The state of the heuristic at earlier nodes, to return to.

ghost use Rattle.dual_ascent.specs.Shapes.{KeepsShape};

use crate::node::Node;
use ascent_lengths::copy;
use dual_ascent::{Snapshot, State};
use search_advice::Side;
use std::alloc::{AllocError, Global};

/// The duals of a heuristic, and sides, penalties and core of the node.
#[derive(Drop)]
pub(crate) struct Memory {
    duals: Snapshot,
    sides: Vec<Side>,
    prices: Vec<i64>,
    core: Vec<usize>,
    age: usize,
}

impl Memory {
    /// A copy of these duals and this node.
    pub(crate) fn of(alloc: Global, state: &State, node: &Node) -> Result<Memory, AllocError> {
        Ok(Memory {
            duals: state.snapshot(alloc)?,
            sides: node.sides.to_vec(alloc)?,
            prices: node.prices.to_vec(alloc)?,
            core: node.core.to_vec(alloc)?,
            age: node.age,
        })
    }

    /// Restores duals and node.
    pub(crate) fn recall(&self, state: &mut State, node: &mut Node)
        ensures { KeepsShape state.old state.new }
    {
        state.restore(&self.duals);
        copy(&self.sides, &mut node.sides);
        copy(&self.prices, &mut node.prices);
        node.recall_core(&self.core, self.age);
    }
}

//! The messages between searchers.

ghost use Rattle.std.specs.Prelude.{IfOk};
ghost use Rattle.std.specs.Arc.{arc_value};
ghost use Rattle.node_rounds.specs.Searchers.{IsAsGood, IsWorked};

use crate::outcomes::Outcome;
use desks::Told;
use search_core::Task;
use std::alloc::{AllocError, Global};
use std::sync::Arc;

/// A finished node evaluation, with its number in the search: the outcome of the node at a position of a round.
/// Numbers, rounds and positions are counted from 0.
#[derive(Drop)]
pub(crate) struct Worked {
    pub(crate) turn: u64,
    pub(crate) round: u64,
    pub(crate) place: u32,
    pub(crate) outcome: Outcome,
}

/// It is what searchers of one task send each other.
impl<'a> Told<Task<'a>> for Worked {
    ghost holds = { IsWorked };

    fn turn(&self) -> u64 {
        self.turn
    }
}

/// The outcome, which is copied where others still hold it.
pub(crate) fn into_outcome(
    alloc: Global,
    worked: Arc<Worked, Global>,
) -> Result<Outcome, AllocError>
    ensures { IfOk result (IsAsGood (arc_value worked).outcome) }
{
    match Arc::try_unwrap(worked) {
        Ok(own) => Ok(own.outcome),
        Err(shared) => shared.outcome.copy(alloc),
    }
}

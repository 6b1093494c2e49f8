//! Who evaluates the nodes of a round.

ghost use Rattle.std.specs.Prelude.{◌≡◌, ◌≤◌, None, length, IfOk, OnOk};
ghost use Rattle.std.specs.List.{AllZip};
ghost use Rattle.search_spec.specs.Turns.{most_turns, next_round};
ghost use Rattle.search_steps.specs.Advising.{parts_of};
ghost use Rattle.node_rounds.specs.Outcomes.{IsTurnOf, IsOutcomeOf};
ghost use Rattle.node_rounds.specs.Left.{standing_of, IsLeft, turned_of};
ghost use Rattle.node_rounds.specs.Searchers.{IsTurnerAt};

use crate::left::Left;
use crate::outcomes::{Outcome, Pending};
use crate::rounds::{turns, turns_ahead};
use crate::searchers::Searcher;
use hub_io::Gate;
use search_core::Task;
use search_steps::Progress;
use std::alloc::{AllocError, Global};
use std::thread::Threads;

/// How many nodes have their turn in a round.
pub(crate) const MOST_TURNS: usize = 8;

/// The nodes whose turn it is: the last, which stand first in the tree.
pub(crate) fn turned(left: &Left) -> &[Pending]
    ensures nodes { result.now ≡ turned_of left.now.nodes.items }
    ensures few { length result.now ≤ most_turns }
{
    let first = left.nodes.len() - left.nodes.len().min(MOST_TURNS);
    &left.nodes[first..]
}

/// The workers of a search, and the gate that each of them passes once for each node that it draws.
#[derive(Clone, Copy)]
pub(crate) struct RoundWorkers<'a, R, G> {
    pub(crate) rt: &'a R,
    pub(crate) count: u32,
    pub(crate) gate: &'a G,
}

/// Who works out the turns of each round of a search.
#[derive(Drop)]
pub(crate) enum Turner<'s, 'a> {
    /// A worker pool, which meets for each round.
    ByCrew,
    /// Searchers side by side, of which this is one.
    BySearcher(Searcher<'s, 'a>),
}

impl<'s, 'a> Turner<'s, 'a> {
    /// The evaluations of the nodes whose turn it is.
    pub(crate) fn turns<R: Threads + Sync, G: Gate>(
        &mut self,
        workers: &RoundWorkers<R, G>,
        alloc: Global,
        task: &Task,
        progress: &Progress,
        left: &Left,
    ) -> Result<Vec<Outcome>, AllocError>
        requires workers { (1 ≤ workers.now.count) × (workers.now.count ≤ 64) }
        requires plain { task.now.instance.now.wanted ≡ None }
        requires left { IsLeft task.now progress.now left.now }
        requires ready { IsTurnerAt self.old task.now (standing_of task.now.instance.now progress.now left.now) }
        ensures ready { let p = task.now.instance.now in
            OnOk result (IsTurnerAt self.new task.now (next_round p (parts_of p) task.now.nodes (standing_of p progress.now left.now))) }
        ensures turns { let s = progress.now in IfOk result (λ v.
            AllZip (IsTurnOf task.now.instance.now s.pool.entries s.cost) (turned_of left.now.nodes.items) v.items) }
        ensures sound { let s = progress.now in IfOk result (λ v.
            AllZip (IsOutcomeOf task.now.instance.now s.pool.entries) (turned_of left.now.nodes.items) v.items) }
    {
        match self {
            Turner::ByCrew => turns_by_crew(workers, alloc, task, progress, left),
            Turner::BySearcher(searcher) => searcher.turns(
                workers.gate,
                alloc,
                task,
                progress,
                left,
            ),
        }
    }
}

// The same by all workers. Where each has a node, the cuts that nodes ask for are separated along with the evaluations.
// Else the separator runs as the outcomes are taken, since it may share a single cut among the workers.
fn turns_by_crew<R: Threads + Sync, G: Gate>(
    workers: &RoundWorkers<R, G>,
    alloc: Global,
    task: &Task,
    progress: &Progress,
    left: &Left,
) -> Result<Vec<Outcome>, AllocError>
    requires workers { (1 ≤ workers.now.count) × (workers.now.count ≤ 64) }
    requires plain { task.now.instance.now.wanted ≡ None }
    requires left { IsLeft task.now progress.now left.now }
    ensures turns { let s = progress.now in IfOk result (λ v.
        AllZip (IsTurnOf task.now.instance.now s.pool.entries s.cost) (turned_of left.now.nodes.items) v.items) }
    ensures sound { let s = progress.now in IfOk result (λ v.
        AllZip (IsOutcomeOf task.now.instance.now s.pool.entries) (turned_of left.now.nodes.items) v.items) }
{
    let RoundWorkers { rt, count, gate } = *workers;
    let nodes = turned(left);
    let (instance, pool, cost) = (task.instance, &progress.pool, progress.cost);
    if nodes.len() < MOST_TURNS.min(count as usize) {
        return turns(rt, alloc, instance, nodes, pool, cost, count, gate);
    }
    turns_ahead(rt, alloc, instance, nodes, pool, cost, count, gate)
}

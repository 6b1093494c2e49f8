//! The node evaluations of a round, by workers side by side.

ghost use Rattle.std.specs.Prelude.{◌≡◌, ◌<◌, ◌≤◌, ◌^◌, None, length, All, IfOk};
ghost use Rattle.std.specs.List.{AllZip};
ghost use denote.Param.Send.{IsSync};
ghost use Rattle.hub_spec.specs.Problem.{IsProblem};
ghost use Rattle.search_spec.specs.Turns.{most_turns};
ghost use Rattle.search_steps.specs.Pools.{IsPoolOf};
ghost use Rattle.node_rounds.specs.Outcomes.{IsPendingOf, IsTurnOf, IsOutcomeOf};
ghost use Rattle.node_rounds.specs.Rounds.{IsRound, IsTurnAt};

use crate::outcomes::{Outcome, Pending};
use crate::turning::{turn, turn_ahead};
use claim_board::{Job, answers};
use cut_pool::Pool;
use hub_io::Gate;
use hub_model::Instance;
use search_steps::Solo;
use std::alloc::{AllocError, Global};
use std::thread::Threads;

/// The turns of some nodes as a job of the worker pool: block i is the turn of node i. All read the same pool and cost.
#[derive(Drop)]
pub(crate) struct Round<'a> {
    pub(crate) instance: &'a Instance,
    pub(crate) nodes: &'a [Pending],
    pub(crate) pool: &'a Pool,
    pub(crate) cost: u128,
    // Whether the cuts that nodes ask for are worked out along with their turns.
    pub(crate) ahead: bool,
}

impl<'a> Job<Outcome> for Round<'a> {
    type Scratch = Option<Solo>;

    ghost answer = { IsTurnAt };

    ghost accepts = { λ job i. (i < length job.nodes.now) × IsRound job };

    ghost serves = { λ job scratch. Unit {0} };

    fn new_scratch(&self, alloc: Global) -> Result<Option<Solo>, AllocError> {
        if !self.ahead {
            return Ok(None);
        }
        Ok(Some(Solo::new(alloc, self.instance)?))
    }

    fn at(
        &self,
        alloc: Global,
        scratch: &mut Option<Solo>,
        block: u32,
    ) -> Result<Outcome, AllocError> {
        let node = &self.nodes[block as usize];
        match scratch {
            Some(solo) => turn_ahead(alloc, self.instance, node, self.pool, self.cost, solo),
            None => turn(alloc, self.instance, node, self.pool, self.cost),
        }
    }
}

/// Evaluates at most eight nodes, in their order, by the pool and the incumbent's cost, in 10^-12. There are 1 to 64
/// workers, each in its own thread where one can be made.
///
/// A worker passes the gate before each node that it draws. The outcomes depend neither on the number of workers nor on
/// their schedule.
pub fn turns<R: Threads + Sync, G: Gate>(
    rt: &R,
    alloc: Global,
    instance: &Instance,
    nodes: &[Pending],
    pool: &Pool,
    cost: u128,
    workers: u32,
    gate: &G,
) -> Result<Vec<Outcome>, AllocError>
    requires problem { IsProblem instance.now }
    requires plain { instance.now.wanted ≡ None }
    requires pool { IsPoolOf instance.now pool.now.entries }
    requires nodes { All (IsPendingOf instance.now pool.now.entries) nodes.now }
    requires few { length nodes.now ≤ most_turns }
    requires cost { cost ≤ 10 ^ 30 }
    requires workers { (1 ≤ workers) × (workers ≤ 64) }
    ensures turns { IfOk result (λ v. AllZip (IsTurnOf instance.now pool.now.entries cost) nodes.now v.items) }
    ensures sound { IfOk result (λ v. AllZip (IsOutcomeOf instance.now pool.now.entries) nodes.now v.items) }
{
    let round = Round {
        instance,
        nodes,
        pool,
        cost,
        ahead: false,
    };
    answers(rt, alloc, &round, nodes.len() as u32, workers, gate)
}

/// The same, where each cut that a node asks for is worked out along with the node's turn, by the same worker.
///
/// It is for rounds in which no worker is without a node.
pub(crate) fn turns_ahead<R: Threads + Sync, G: Gate>(
    rt: &R,
    alloc: Global,
    instance: &Instance,
    nodes: &[Pending],
    pool: &Pool,
    cost: u128,
    workers: u32,
    gate: &G,
) -> Result<Vec<Outcome>, AllocError>
    requires problem { IsProblem instance.now }
    requires plain { instance.now.wanted ≡ None }
    requires pool { IsPoolOf instance.now pool.now.entries }
    requires nodes { All (IsPendingOf instance.now pool.now.entries) nodes.now }
    requires few { length nodes.now ≤ most_turns }
    requires cost { cost ≤ 10 ^ 30 }
    requires workers { (1 ≤ workers) × (workers ≤ 64) }
    ensures turns { IfOk result (λ v. AllZip (IsTurnOf instance.now pool.now.entries cost) nodes.now v.items) }
    ensures sound { IfOk result (λ v. AllZip (IsOutcomeOf instance.now pool.now.entries) nodes.now v.items) }
{
    let round = Round {
        instance,
        nodes,
        pool,
        cost,
        ahead: true,
    };
    answers(rt, alloc, &round, nodes.len() as u32, workers, gate)
}

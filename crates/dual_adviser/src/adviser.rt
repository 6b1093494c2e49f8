//! The heuristic of a search: improves duals from node to node, and finds hub sets.

ghost use Rattle.std.specs.Prelude.{◌≡◌, ◌<◌, ◌≤◌, length, IfOk, IfSome};
ghost use denote.Param.Send.{IsSync};
ghost use Rattle.dual_ascent.specs.Shapes.{cells, shape_of, KeepsShape};

use crate::fitting::Fitting;
use crate::memory::Memory;
use crate::node::Node;
use crate::progress::NodeProgress;
use ascent_lengths::{Lengths, PassWorkers, copy};
use dual_ascent::{PassSpace, State, listed};
use hub_model::Instance;
use hub_moves::{LocalSearch, Sets};
use search_advice::{Advice, Side};
use std::alloc::{AllocError, Global};
use std::marker::Model;
use std::thread::Threads;

/// The greatest number of stored states.
const MOST_MEMORIES: usize = 8;

/// The heuristic of a search, node after node. Contracts see only the shape of its instance.
///
/// Duals and penalties go on from node to node, so that a child starts from its parent's. A stored state leads back to
/// an earlier node. `aside` is the depth of such states; the first eight are stored, deeper ones are not.
#[derive(Drop)]
pub struct Adviser {
    pub(crate) workers: u32,
    pub(crate) lengths: Lengths,
    pub(crate) state: State,
    pub(crate) node: Node,
    pub(crate) sets: Sets,
    pub(crate) progress: NodeProgress,
    pub(crate) bench: PassSpace,
    pub(crate) search: LocalSearch,
    pub(crate) fitting: Fitting,
    pub(crate) listed: Vec<usize>,
    memories: Vec<Memory>,
    aside: usize,
    pub(crate) branch: Option<usize>,
}

impl Model for Adviser {
    ghost use Rattle.dual_ascent.specs.Shapes.{Shape};

    ghost Value = { Shape };

    ghost view = { λ s. s.state };
}

impl Adviser {
    /// A heuristic for the instance, with all duals 0. At most 64 workers share its passes; the results are the same
    /// for every number of workers.
    #[tactic(auto, using(dual_ascent::proofs::SmallShapes::few_places))]
    pub fn new(alloc: Global, instance: &Instance, workers: u32) -> Result<Adviser, AllocError>
        ensures { IfOk result (λ a. a ≡ shape_of instance.now) }
    {
        let size = instance.size() as usize;
        let places = instance.candidates().len();
        let lengths = Lengths::new(alloc, instance)?;
        let node = Node::new(alloc, &lengths)?;
        Ok(Adviser {
            workers,
            state: State::new(alloc, size, places)?,
            sets: Sets::new(alloc, places)?,
            progress: NodeProgress::new(alloc)?,
            bench: PassSpace::new(alloc, &lengths, &node.core)?,
            search: LocalSearch::new(alloc, size, places)?,
            fitting: Fitting::new(alloc, places)?,
            listed: listed(alloc, &lengths)?,
            memories: Vec::new(alloc),
            aside: 0,
            branch: None,
            node,
            lengths,
        })
    }

    /// Starts from these values in place of 0, in the unit of `unit()`: a row for each commodity in order, a number for
    /// each place. Past the end of the list they are 0.
    ///
    /// Penalties and loads are computed again. It is meant for a new heuristic.
    pub fn begin_with(&mut self, values: &[u32])
        ensures { KeepsShape self.old self.new }
    {
        self.state.begin_with(&self.lengths, values);
    }

    /// The workers.
    pub(crate) fn workers<'a, R>(&self, rt: &'a R, alloc: Global) -> PassWorkers<'a, R> {
        PassWorkers {
            rt,
            alloc,
            count: self.workers,
        }
    }

    /// An estimate of the node's bound by the Benders cut from the dual values.
    pub(crate) fn bound(&self) -> i128 {
        self.state.sums().bound(&self.lengths, &self.node.sides)
    }

    /// Makes one pass, and completes the duals where the bound seems to reach the cutoff.
    fn pass<R: Threads + Sync>(
        &mut self,
        workers: &PassWorkers<'_, R>,
        wanted: i128,
    ) -> Result<(), AllocError>
        ensures { KeepsShape self.old self.new }
    {
        let terms = self.node.terms();
        let gain = self
            .state
            .pass(workers, &self.lengths, terms, &mut self.bench);
        let bound = self.bound();
        self.progress.note(bound, gain);
        if self.progress.is_idle(self.lengths.flowing, wanted) {
            self.state.break_off_waits();
        }
        if bound >= wanted {
            self.complete(workers)?;
            self.progress.bound = self.bound();
        }
        self.node.follow(&self.state.sums().loads);
        Ok(())
    }
}

impl Advice for Adviser {
    fn unit(&self) -> u64
        ensures { 1 ≤ result }
    {
        self.lengths.unit()
    }

    fn enter(&mut self, sides: &[Side], hubs: &[bool])
        ensures { KeepsShape self.old self.new }
    {
        self.branch = None;
        match self.node.turned(sides) {
            None => self.state.end_waits(),
            Some(turned) => self.state.end_waits_at(&self.lengths, turned),
        }
        copy(sides, &mut self.node.sides);
        self.progress.begin(self.node.is_root());
        self.sets.begin(&self.lengths, hubs);
        self.node.mark_start(hubs, &mut self.sets.start);
        self.node
            .mark_movable(&self.sets.start, &mut self.sets.movable);
    }

    // The first pass at a node starts it.
    fn better<R: Threads + Sync>(
        &mut self,
        rt: &R,
        alloc: Global,
        wanted: i128,
    ) -> Result<(), AllocError>
        requires { IsSync R.row }
        ensures { KeepsShape self.old self.new }
    {
        let workers = self.workers(rt, alloc);
        self.branch = None;
        if self.progress.passes() == 0 && self.begin(&workers)? {
            return Ok(());
        }
        let known = wanted.min(self.sets.known);
        self.prepare(&workers, known)?;
        self.pass(&workers, known)?;
        self.round(&workers, wanted)
    }

    fn goes_on(&self, wanted: i128) -> bool {
        let wanted = wanted.min(self.sets.known);
        let scale = self.sets.scale(&self.lengths, wanted);
        self.progress.goes_on(wanted, scale)
    }

    fn settle<R: Threads + Sync>(
        &mut self,
        rt: &R,
        alloc: Global,
        wanted: i128,
        may_branch: bool,
    ) -> Result<bool, AllocError>
        requires { IsSync R.row }
        ensures { KeepsShape self.old self.new }
    {
        let workers = self.workers(rt, alloc);
        let wanted = wanted.min(self.sets.known);
        if may_branch && self.progress.bound < wanted {
            self.choose_branch(&workers, wanted)?;
            return Ok(false);
        }
        self.complete(&workers)?;
        if self.lengths.are_merged {
            self.state.mirror(&self.lengths);
        }
        Ok(true)
    }

    fn bound_hint(&self) -> i128 {
        self.progress.bound
    }

    fn values(&self) -> &[u32]
        ensures { length result.now ≡ cells self.now }
    {
        self.state.values()
    }

    fn cost_hint(&self) -> i128 {
        self.sets.cost
    }

    fn guess(&self) -> &[bool] {
        &self.sets.best
    }

    fn branch_place(&self) -> Option<usize>
        ensures { IfSome result (λ k. k < self.now.places) }
    {
        let place = match self.branch {
            Some(place) => place,
            None => self.node.branch_place()?,
        };
        if place < self.state.places() {
            Some(place)
        } else {
            None
        }
    }

    fn put_aside(&mut self, alloc: Global) -> Result<(), AllocError>
        ensures { KeepsShape self.old self.new }
    {
        if self.aside < MOST_MEMORIES {
            let memory = Memory::of(alloc, &self.state, &self.node)?;
            self.memories.push(memory)?;
        }
        self.aside = self.aside.saturating_add(1);
        Ok(())
    }

    fn go_back(&mut self)
        ensures { KeepsShape self.old self.new }
    {
        self.aside = self.aside.saturating_sub(1);
        if self.memories.len() > self.aside {
            if let Some(memory) = self.memories.pop() {
                memory.recall(&mut self.state, &mut self.node);
            }
        }
    }
}

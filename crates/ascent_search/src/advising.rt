//! Ascent passes at a node: they improve the dual values, and the hub set that may become the incumbent.

ghost use Rattle.std.specs.Prelude.{◌≤◌, length, IfOk, OnOk, Contains};
ghost use Rattle.hub_spec.specs.Trees.{IsBranch, HasRoom};
ghost use Rattle.ascent_search.specs.Progressing.{IsGoing, IsAt, IsAdvised};
ghost use Rattle.ascent_search.specs.Walking.{IsWalking, IsSameWalk};

use crate::progress::{goal, may_split, offer_nodes};
use crate::walker::Walker;
use hub_model::{Branch, signed};
use search_advice::Advice;
use std::alloc::AllocError;
use std::thread::Threads;

/// The greatest number of passes at the root.
const ROOT_PASSES: u32 = 60;

/// The greatest number of passes at each node below.
const PASSES: u32 = 15;

impl<R: Threads + Sync, A: Advice + Drop> Walker<'_, R, A> {
    /// Makes ascent passes at the branch, and returns whether that ended it. It ends with a leaf on the Benders cut
    /// from the dual values, or with a stop where two more nodes are not allowed.
    pub(crate) fn end_by_advice(&mut self, branch: &Branch) -> Result<bool, AllocError>
        requires walking { IsWalking self.old.walk }
        requires branch { IsBranch self.old.walk.task.now.instance.now branch.now }
        requires room { HasRoom self.old.walk.task.now.instance.now.wanted branch.now }
        requires some_free { 1 ≤ length branch.now.free }
        ensures same { IsSameWalk self.old.walk self.new.walk }
        ensures advised { let w = self.old.walk in
            IfOk result (λ ended. IsAdvised w.task.now branch.now w.progress self.new.walk.progress ended) }
    {
        self.take_advice(branch)?;
        let wanted = signed(goal(self.walk.task, &self.walk.progress));
        let may_branch = may_split(self.walk.task, &self.walk.progress);
        let is_whole = self
            .guide
            .advice
            .settle(self.rt, self.walk.alloc, wanted, may_branch)?;
        if may_branch && !is_whole {
            return Ok(false);
        }
        let advice = &self.guide.advice;
        self.walk
            .end_by_values(self.rt, advice.unit(), advice.values(), branch)
    }

    // Makes ascent passes at the branch while they are worth their time.
    fn take_advice(&mut self, branch: &Branch) -> Result<(), AllocError>
        requires { IsGoing self.old.walk.task.now self.old.walk.progress }
        ensures same { IsSameWalk self.old.walk self.new.walk }
        ensures at { OnOk result (IsAt self.old.walk.task.now self.old.walk.progress self.new.walk.progress) }
    {
        let candidates = self.walk.task.instance.candidates();
        self.guide
            .enter(candidates, branch, &self.walk.progress.hubs);
        for _ in 0..most_passes(branch) {
            if !self.pass()? {
                break;
            }
        }
        Ok(())
    }

    // Makes one pass towards the cutoff and offers the hub set after it, if a pass is worth its time. Returns whether
    // it did.
    fn pass(&mut self) -> Result<bool, AllocError>
        requires { IsGoing self.old.walk.task.now self.old.walk.progress }
        ensures same { IsSameWalk self.old.walk self.new.walk }
        ensures at { OnOk result (IsAt self.old.walk.task.now self.old.walk.progress self.new.walk.progress) }
    {
        let wanted = signed(goal(self.walk.task, &self.walk.progress));
        if !self.guide.goes_on(wanted) {
            return Ok(false);
        }
        self.guide.advice.better(self.rt, self.walk.alloc, wanted)?;
        self.take_guess()?;
        Ok(true)
    }

    // Makes the hub set of the heuristic the incumbent, if it is feasible, is wanted, and costs less.
    fn take_guess(&mut self) -> Result<(), AllocError>
        requires { IsGoing self.old.walk.task.now self.old.walk.progress }
        ensures same { IsSameWalk self.old.walk self.new.walk }
        ensures at { OnOk result (IsAt self.old.walk.task.now self.old.walk.progress self.new.walk.progress) }
    {
        if !self.guide.has_guess_below(signed(self.walk.progress.cost)) {
            return Ok(());
        }
        let task = self.walk.task;
        let hubs = self
            .guide
            .guess(self.walk.alloc, task.instance.candidates())?;
        offer_nodes(self.walk.alloc, task, &hubs, &mut self.walk.progress)
    }

    /// The node to branch on: that of the heuristic, or the first free one.
    pub(crate) fn branch_node(&self, branch: &Branch) -> u32
        requires { 1 ≤ length branch.now.free }
        ensures { Contains branch.now.free result }
    {
        let free = branch.free();
        if let Some(k) = self.guide.branch_node(self.walk.task.instance.candidates()) {
            if free.contains(&k) {
                return k;
            }
        }
        free[0]
    }
}

// The greatest number of passes at the branch.
fn most_passes(branch: &Branch) -> u32 {
    if branch.inside().is_empty() && branch.outside().is_empty() {
        ROOT_PASSES
    } else {
        PASSES
    }
}

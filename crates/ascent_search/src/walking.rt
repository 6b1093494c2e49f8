//! The walk over the tree, the open child first.

ghost use Rattle.std.specs.Prelude.{◌+◌, ◌≤◌, length, OnOk};
ghost use Rattle.hub_spec.specs.Trees.{IsBranch};
ghost use Rattle.search_spec.specs.Findings.{AreWithin};
ghost use Rattle.ascent_search.specs.Progressing.{IsDone};
ghost use Rattle.ascent_search.specs.Walking.{IsWalking, IsSameWalk};

use crate::ends::{barren_line, last_set};
use crate::progress::{end_with, split_on};
use crate::walker::Walker;
use hub_model::Branch;
use search_advice::Advice;
use std::alloc::AllocError;
use std::thread::Threads;

impl<R: Threads + Sync, A: Advice + Drop> Walker<'_, R, A> {
    /// Evaluates the node of a branch, and all nodes below it.
    #[cycle(walk)]
    pub(crate) fn node(&mut self, branch: &Branch) -> Result<(), AllocError>
        requires walking { IsWalking self.old.walk }
        requires branch { IsBranch self.old.walk.task.now.instance.now branch.now }
        ensures same { IsSameWalk self.old.walk self.new.walk }
        ensures done { OnOk result (IsDone self.old.walk.task.now branch.now self.old.walk.progress self.new.walk.progress) }
    {
        if let Some(line) = barren_line(self.walk.alloc, self.walk.task.instance, branch)? {
            return end_with(self.walk.task, branch, line, &mut self.walk.progress);
        }
        if self.walk.progress.stopped {
            return self.walk.stopped_leaf(branch);
        }
        if let Some(number) = self.walk.closing_cut(branch) {
            return self.walk.cut_leaf(branch, number);
        }
        if let Some(set) = last_set(self.walk.alloc, self.walk.task.instance, branch)? {
            return self.walk.set_leaf(branch, set);
        }
        if self.end_by_advice(branch)? {
            return Ok(());
        }
        self.parted(branch)
    }

    /// Branches on a free node, where two more nodes are allowed.
    #[cycle(walk)]
    fn parted(&mut self, branch: &Branch) -> Result<(), AllocError>
        requires walking { IsWalking self.old.walk }
        requires branch { IsBranch self.old.walk.task.now.instance.now branch.now }
        requires some_free { 1 ≤ length branch.now.free }
        requires allowed { AreWithin self.old.walk.task.now.nodes (self.old.walk.progress.made + 2) }
        ensures same { IsSameWalk self.old.walk self.new.walk }
        ensures done { OnOk result (IsDone self.old.walk.task.now branch.now self.old.walk.progress self.new.walk.progress) }
    {
        let alloc = self.walk.alloc;
        let k = self.branch_node(branch);
        split_on(self.walk.task, branch, k, &mut self.walk.progress)?;
        self.guide.advice.put_aside(alloc)?;
        let opened = branch.open_child(alloc, k)?;
        self.child(opened)?;
        self.guide.advice.go_back();
        let closed = branch.closed_child(alloc, k)?;
        self.child(closed)
    }

    /// Evaluates the node of a child, which is dropped then.
    #[cycle(walk)]
    fn child(&mut self, branch: Branch) -> Result<(), AllocError>
        requires walking { IsWalking self.old.walk }
        requires branch { IsBranch self.old.walk.task.now.instance.now branch }
        ensures same { IsSameWalk self.old.walk self.new.walk }
        ensures done { OnOk result (IsDone self.old.walk.task.now branch self.old.walk.progress self.new.walk.progress) }
    {
        self.node(&branch)
    }
}

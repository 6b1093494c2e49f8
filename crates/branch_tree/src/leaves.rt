//! The leaves of the tree.

ghost use Rattle.std.specs.Prelude.{◌≡◌, ◌≤◌, Some, length, All, OnOk};
ghost use Rattle.hub_spec.specs.Plans.{IsHubSet};
ghost use Rattle.hub_spec.specs.Trees.{IsBranch, HasRoom, leaf};
ghost use Rattle.search_spec.specs.States.{denominator};
ghost use Rattle.search_spec.specs.Steps.{full_on, stopped_leaf, ended};
ghost use Rattle.search_steps.specs.Weights.{AreNodeWeights, pairs_of};
ghost use Rattle.search_steps.specs.Advising.{parts_of};
ghost use Rattle.search_steps.specs.Kinds.{parts_for};
ghost use Rattle.search_steps.specs.Progressing.{state_of, IsGoing};
ghost use Rattle.branch_tree.specs.Lines.{IsDone};

use crate::lines::add_line;
use crate::walk::RuleWalk;
use hub_model::{Branch, HubSet, outside};
use search_core::whole_leaf;
use search_steps::{Rule, Separator, leaf_line, number_of, stopped_leaf};
use std::alloc::AllocError;

impl<R: Rule> RuleWalk<'_, R> {
    /// Adds the leaf with these weights.
    pub(crate) fn add_leaf(&mut self, weights: &[u128]) -> Result<(), AllocError>
        requires serves { R.serves self.old.rule.now self.old.task.now.instance.now }
        requires going { IsGoing self.old.task.now self.old.progress }
        requires weights { All (λ w. w ≤ denominator) weights.now }
        ensures same { self.new.task.now ≡ self.old.task.now }
        ensures serves { R.serves self.new.rule.now self.new.task.now.instance.now }
        ensures added { let p = self.old.task.now.instance.now in
            OnOk result (IsDone self.old.task.now self.old.progress self.new.progress
            (record { state = state_of p self.old.progress; tree = leaf denominator (pairs_of weights.now) })) }
    {
        let line = leaf_line(self.alloc, weights)?;
        add_line(&mut self.progress, line)
    }

    /// Adds the leaf that a stop makes of the branch, which has room for the wanted hubs, with these weights.
    pub(crate) fn stopped_leaf(
        &mut self,
        branch: &Branch,
        weights: &[u128],
    ) -> Result<(), AllocError>
        requires serves { R.serves self.old.rule.now self.old.task.now.instance.now }
        requires going { IsGoing self.old.task.now self.old.progress }
        requires branch { IsBranch self.old.task.now.instance.now branch.now }
        requires room { HasRoom self.old.task.now.instance.now.wanted branch.now }
        requires weights { AreNodeWeights self.old.progress.pool.entries weights.now }
        ensures same { self.new.task.now ≡ self.old.task.now }
        ensures serves { R.serves self.new.rule.now self.new.task.now.instance.now }
        ensures stopped { let p = self.old.task.now.instance.now in
            OnOk result (IsDone self.old.task.now self.old.progress self.new.progress
            (stopped_leaf p branch.now (pairs_of weights.now) (state_of p self.old.progress))) }
    {
        let line = stopped_leaf(
            self.alloc,
            self.rule,
            self.task,
            &mut self.progress,
            branch,
            weights,
        )?;
        add_line(&mut self.progress, line)
    }

    /// Adds the leaf of a branch in which the set of these hubs alone is left. The leaf uses the Benders cut from this
    /// set, which is separated first unless it is known.
    pub(crate) fn full_leaf<S: Separator>(
        &mut self,
        separator: &mut S,
        hubs: &[u32],
    ) -> Result<(), AllocError>
        requires ready { S.ready separator.old }
        requires serves { R.serves self.old.rule.now self.old.task.now.instance.now }
        requires going { IsGoing self.old.task.now self.old.progress }
        requires set { IsHubSet self.old.task.now.instance.now hubs.now }
        ensures ready { S.ready separator.new }
        ensures same { self.new.task.now ≡ self.old.task.now }
        ensures serves { R.serves self.new.rule.now self.new.task.now.instance.now }
        ensures full { let p = self.old.task.now.instance.now in
            OnOk result (IsDone self.old.task.now self.old.progress self.new.progress
            (full_on (parts_for S.kind p) hubs.now (state_of p self.old.progress))) }
    {
        let set = HubSet::of(self.alloc, hubs)?;
        if let Some(number) = number_of(&self.progress, &set) {
            let line = whole_leaf(self.alloc, number)?;
            return add_line(&mut self.progress, line);
        }
        let order = outside(self.alloc, self.task.instance, &set)?;
        self.separate(separator, set, order)?;
        let line = whole_leaf(self.alloc, self.progress.pool.len())?;
        add_line(&mut self.progress, line)
    }

    /// Ends a branch in which the set of these hubs is left alone: with the line of an end, or the leaf of the set.
    pub(crate) fn end_branch<S: Separator>(
        &mut self,
        separator: &mut S,
        branch: &Branch,
        hubs: &[u32],
    ) -> Result<(), AllocError>
        requires ready { S.ready separator.old }
        requires serves { R.serves self.old.rule.now self.old.task.now.instance.now }
        requires going { IsGoing self.old.task.now self.old.progress }
        requires branch { IsBranch self.old.task.now.instance.now branch.now }
        requires alone { (parts_of self.old.task.now.instance.now).only branch.now ≡ Some hubs.now }
        ensures ready { S.ready separator.new }
        ensures same { self.new.task.now ≡ self.old.task.now }
        ensures serves { R.serves self.new.rule.now self.new.task.now.instance.now }
        ensures ended { let p = self.old.task.now.instance.now in
            OnOk result (IsDone self.old.task.now self.old.progress self.new.progress
            (ended (parts_for S.kind p) branch.now (state_of p self.old.progress) hubs.now)) }
    {
        if let Some(line) = self.rule.end(branch) {
            return add_line(&mut self.progress, line);
        }
        let instance = self.task.instance;
        if let Some(line) = self.rule.blocked(self.alloc, instance, branch)? {
            return add_line(&mut self.progress, line);
        }
        self.full_leaf(separator, hubs)
    }
}

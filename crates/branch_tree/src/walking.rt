//! The depth-first walk over the tree, the open child of a branch first.

ghost use Rattle.std.specs.Prelude.{◌≡◌, ◌≤◌, ◌<◌, length, map, pos, slice_index_or, OnOk};
ghost use Rattle.hub_spec.specs.Trees.{IsBranch, HasRoom};
ghost use Rattle.frac_master.specs.Advice.{advice_of_code};
ghost use Rattle.search_spec.specs.Choices.{nearest_half};
ghost use Rattle.search_spec.specs.Steps.{fixed, halved};
ghost use Rattle.search_steps.specs.Advising.{told_by};
ghost use Rattle.search_steps.specs.Kinds.{parts_for};
ghost use Rattle.search_steps.specs.Weights.{AreNodeWeights, pairs_of, sides_as};
ghost use Rattle.branch_tree.specs.Lines.{handling, IsDone};
ghost use Rattle.search_steps.specs.Progressing.{state_of, IsGoing};
ghost use Rattle.search_steps.specs.FixingsLeft.{AreOnFree};

use crate::lines::{add_line, split_on};
use crate::rounds::RoundEnd;
use crate::walk::RuleWalk;
use hub_model::Branch;
use leaf_bound::Side;
use search_steps::{Rule, Separator, may_split, nearest};
use std::alloc::AllocError;

impl<R: Rule> RuleWalk<'_, R> {
    /// Handles the node of a branch that has fewer free nodes than the depth, with these weights, and all nodes below it.
    #[cycle(walk)]
    pub(crate) fn node<S: Separator>(
        &mut self,
        depth: u32,
        separator: &mut S,
        branch: &Branch,
        weights: &[u128],
    ) -> Result<(), AllocError>
        requires ready { S.ready separator.old }
        requires serves { R.serves self.old.rule.now self.old.task.now.instance.now }
        requires going { IsGoing self.old.task.now self.old.progress }
        requires branch { IsBranch self.old.task.now.instance.now branch.now }
        requires weights { AreNodeWeights self.old.progress.pool.entries weights.now }
        requires deep { length branch.now.free < depth }
        ensures ready { S.ready separator.new }
        ensures same { self.new.task.now ≡ self.old.task.now }
        ensures serves { R.serves self.new.rule.now self.new.task.now.instance.now }
        ensures done { let t = self.old.task.now in OnOk result (IsDone t self.old.progress self.new.progress
            (handling S.kind t depth branch.now (pairs_of weights.now) (state_of t.instance.now self.old.progress))) }
    {
        if let Some(line) = self.rule.end(branch) {
            return add_line(&mut self.progress, line);
        }
        if self.progress.stop.is_some() {
            return self.stopped_leaf(branch, weights);
        }
        let instance = self.task.instance;
        if let Some(line) = self.rule.blocked(self.alloc, instance, branch)? {
            return add_line(&mut self.progress, line);
        }
        if let Some(hubs) = self.rule.alone(self.alloc, instance, branch)? {
            return self.full_leaf(separator, &hubs);
        }
        let round = self.rounds(separator, branch, weights)?;
        if self.closes_cost(branch, &round.weights) {
            return self.add_leaf(&round.weights);
        }
        let fixings = self.fixings(branch, &round.weights)?;
        self.fixed(depth - 1, separator, &round, &fixings, branch)
    }

    /// Makes the fixings one by one, each with a leaf as the other child, until a set is left alone, and else parts the
    /// branch that is left. The branch has room for the wanted hubs.
    #[cycle(walk)]
    fn fixed<S: Separator>(
        &mut self,
        depth: u32,
        separator: &mut S,
        round: &RoundEnd,
        fixings: &[(u32, Side)],
        branch: &Branch,
    ) -> Result<(), AllocError>
        requires ready { S.ready separator.old }
        requires serves { R.serves self.old.rule.now self.old.task.now.instance.now }
        requires going { IsGoing self.old.task.now self.old.progress }
        requires branch { IsBranch self.old.task.now.instance.now branch.now }
        requires room { HasRoom self.old.task.now.instance.now.wanted branch.now }
        requires weights { AreNodeWeights self.old.progress.pool.entries round.now.weights.items }
        requires free { AreOnFree branch.now (sides_as fixings.now) }
        requires deep { length branch.now.free ≤ depth }
        ensures ready { S.ready separator.new }
        ensures same { self.new.task.now ≡ self.old.task.now }
        ensures serves { R.serves self.new.rule.now self.new.task.now.instance.now }
        ensures done { let t = self.old.task.now in let p = t.instance.now in
            OnOk result (IsDone t self.old.progress self.new.progress
            (fixed p (parts_for S.kind p) t.nodes (handling S.kind t depth) (told_by (advice_of_code round.now.advice))
            (sides_as fixings.now) branch.now (pairs_of round.now.weights.items) (state_of p self.old.progress))) }
    {
        let instance = self.task.instance;
        if let Some(hubs) = self.rule.alone(self.alloc, instance, branch)? {
            return self.end_branch(separator, branch, &hubs);
        }
        if !may_split(self.task, &self.progress) {
            return self.stopped_leaf(branch, &round.weights);
        }
        let (k, side, rest) = match fixings {
            [] => return self.halved(depth, separator, round, branch),
            [(k, side), rest @ ..] => (*k, *side, rest),
        };
        split_on(&mut self.progress, k)?;
        match side {
            Side::In => {
                let child = branch.open_child(self.alloc, k)?;
                self.fixed(depth, separator, round, rest, &child)?;
                self.add_leaf(&round.weights)
            }
            Side::Out => {
                let child = branch.closed_child(self.alloc, k)?;
                self.add_leaf(&round.weights)?;
                self.fixed(depth, separator, round, rest, &child)
            }
        }
    }

    /// Searches both children of the branch on the free node nearest to a half.
    #[cycle(walk)]
    fn halved<S: Separator>(
        &mut self,
        depth: u32,
        separator: &mut S,
        round: &RoundEnd,
        branch: &Branch,
    ) -> Result<(), AllocError>
        requires ready { S.ready separator.old }
        requires serves { R.serves self.old.rule.now self.old.task.now.instance.now }
        requires going { IsGoing self.old.task.now self.old.progress }
        requires branch { IsBranch self.old.task.now.instance.now branch.now }
        requires some_free { 1 ≤ length branch.now.free }
        requires weights { AreNodeWeights self.old.progress.pool.entries round.now.weights.items }
        requires deep { length branch.now.free ≤ depth }
        ensures ready { S.ready separator.new }
        ensures same { self.new.task.now ≡ self.old.task.now }
        ensures serves { R.serves self.new.rule.now self.new.task.now.instance.now }
        ensures done { let t = self.old.task.now in let p = t.instance.now in
            let k = nearest_half (told_by (advice_of_code round.now.advice)) branch.now in
            OnOk result (IsDone t self.old.progress self.new.progress
            (halved (handling S.kind t depth) k branch.now (pairs_of round.now.weights.items) (state_of p self.old.progress))) }
    {
        let k = nearest(&round.advice, branch);
        split_on(&mut self.progress, k)?;
        let opened = branch.open_child(self.alloc, k)?;
        self.node(depth, separator, &opened, &round.weights)?;
        let closed = branch.closed_child(self.alloc, k)?;
        self.node(depth, separator, &closed, &round.weights)
    }
}

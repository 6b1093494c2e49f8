//! The rounds of a node: each solves the master and separates a hub set by its point.

ghost use Rattle.std.specs.Prelude.{◌≡◌, length, IfOk};
ghost use Rattle.hub_spec.specs.Trees.{IsBranch};
ghost use Rattle.search_spec.specs.Laws.{GoesOn};
ghost use Rattle.search_spec.specs.Steps.{round, rounds};
ghost use Rattle.search_steps.specs.Weights.{AreNodeWeights, pairs_of};
ghost use Rattle.search_steps.specs.Advising.{parts_of};
ghost use Rattle.search_steps.specs.Kinds.{parts_for};
ghost use Rattle.search_steps.specs.Progressing.{state_of, IsGoing};
ghost use Rattle.branch_tree.specs.Rounding.{round_as, IsRound};

use crate::walk::RuleWalk;
use frac_master::Advice;
use hub_model::Branch;
use pareto_cuts::order_of;
use search_steps::{Rule, Separator, node_advice, number_of};
use std::alloc::AllocError;

/// The end of a round: the weights on the first cuts, in 10^-6, the weights and point of the master that it used, and
/// whether another round may follow.
#[derive(Drop)]
pub(crate) struct RoundEnd {
    pub(crate) weights: Vec<u128>,
    pub(crate) advice: Advice,
    pub(crate) again: bool,
}

impl<R: Rule> RuleWalk<'_, R> {
    /// Up to three rounds in the branch, which begin with these weights.
    pub(crate) fn rounds<S: Separator>(
        &mut self,
        separator: &mut S,
        branch: &Branch,
        weights: &[u128],
    ) -> Result<RoundEnd, AllocError>
        requires ready { S.ready separator.old }
        requires serves { R.serves self.old.rule.now self.old.task.now.instance.now }
        requires going { IsGoing self.old.task.now self.old.progress }
        requires branch { IsBranch self.old.task.now.instance.now branch.now }
        requires goes_on { GoesOn (parts_of self.old.task.now.instance.now) branch.now }
        requires weights { AreNodeWeights self.old.progress.pool.entries weights.now }
        ensures ready { S.ready separator.new }
        ensures same { self.new.task.now ≡ self.old.task.now }
        ensures serves { R.serves self.new.rule.now self.new.task.now.instance.now }
        ensures rounds { let p = self.old.task.now.instance.now in let parts = parts_for S.kind p in
            IfOk result (λ r. IsRound self.old.task.now self.old.progress self.new.progress r
            (rounds 2 p parts branch.now (round p parts branch.now (pairs_of weights.now) (state_of p self.old.progress)))) }
    {
        let first = self.round(separator, branch, weights)?;
        let second = self.next_round(separator, branch, first)?;
        self.next_round(separator, branch, second)
    }

    // A round after this one, if another may follow.
    fn next_round<S: Separator>(
        &mut self,
        separator: &mut S,
        branch: &Branch,
        last: RoundEnd,
    ) -> Result<RoundEnd, AllocError>
        requires ready { S.ready separator.old }
        requires serves { R.serves self.old.rule.now self.old.task.now.instance.now }
        requires going { IsGoing self.old.task.now self.old.progress }
        requires branch { IsBranch self.old.task.now.instance.now branch.now }
        requires goes_on { GoesOn (parts_of self.old.task.now.instance.now) branch.now }
        requires weights { AreNodeWeights self.old.progress.pool.entries last.weights.items }
        ensures ready { S.ready separator.new }
        ensures same { self.new.task.now ≡ self.old.task.now }
        ensures serves { R.serves self.new.rule.now self.new.task.now.instance.now }
        ensures round { let p = self.old.task.now.instance.now in
            IfOk result (λ r. IsRound self.old.task.now self.old.progress self.new.progress r
            (rounds 1 p (parts_for S.kind p) branch.now (round_as p self.old.progress last))) }
    {
        if !last.again {
            return Ok(last);
        }
        self.round(separator, branch, &last.weights)
    }

    // One round: separates the set that the master's point picks. It does not where the weights fathom the branch at
    // the incumbent's cost, or where the set is known.
    fn round<S: Separator>(
        &mut self,
        separator: &mut S,
        branch: &Branch,
        weights: &[u128],
    ) -> Result<RoundEnd, AllocError>
        requires ready { S.ready separator.old }
        requires serves { R.serves self.old.rule.now self.old.task.now.instance.now }
        requires going { IsGoing self.old.task.now self.old.progress }
        requires branch { IsBranch self.old.task.now.instance.now branch.now }
        requires goes_on { GoesOn (parts_of self.old.task.now.instance.now) branch.now }
        requires weights { AreNodeWeights self.old.progress.pool.entries weights.now }
        ensures ready { S.ready separator.new }
        ensures same { self.new.task.now ≡ self.old.task.now }
        ensures serves { R.serves self.new.rule.now self.new.task.now.instance.now }
        ensures round { let p = self.old.task.now.instance.now in
            IfOk result (λ r. IsRound self.old.task.now self.old.progress self.new.progress r
            (round p (parts_for S.kind p) branch.now (pairs_of weights.now) (state_of p self.old.progress))) }
    {
        let advice = node_advice(
            self.rule,
            self.alloc,
            self.task.instance,
            &self.progress.pool,
            branch,
            self.progress.cost,
        )?;
        let weights = self.better_weights(branch, weights, &advice.weights)?;
        if self.closes_cost(branch, &weights) {
            return Ok(RoundEnd {
                weights,
                advice,
                again: false,
            });
        }
        let set = self
            .rule
            .pick(self.alloc, self.task.instance, &advice, branch)?;
        if number_of(&self.progress, &set).is_some() {
            return Ok(RoundEnd {
                weights,
                advice,
                again: false,
            });
        }
        let order = order_of(self.alloc, self.task.instance, &advice.point, &set)?;
        self.separate(separator, set, order)?;
        Ok(RoundEnd {
            weights,
            advice,
            again: true,
        })
    }
}

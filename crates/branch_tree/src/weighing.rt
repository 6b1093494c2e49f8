//! Bounds and fixings of a branch by its weights.

ghost use Rattle.std.specs.Prelude.{◌≡◌, false, length, IfOk};
ghost use Rattle.hub_spec.specs.Trees.{IsBranch, HasRoom};
ghost use Rattle.search_spec.specs.Laws.{GoesOn};
ghost use Rattle.search_spec.specs.Steps.{better, closes_at, fixings};
ghost use Rattle.search_steps.specs.Advising.{parts_of};
ghost use Rattle.search_steps.specs.Weights.{AreNodeWeights, pairs_of, sides_as};
ghost use Rattle.search_steps.specs.Progressing.{state_of, IsGoing};

use crate::walk::RuleWalk;
use hub_model::Branch;
use leaf_bound::Side;
use search_steps::{NodeWeights, Rule, closes, is_better};
use std::alloc::AllocError;

impl<R: Rule> RuleWalk<'_, R> {
    /// The master's weights if their bound is above that of the present ones, else the present ones.
    pub(crate) fn better_weights(
        &self,
        branch: &Branch,
        present: &[u128],
        advised: &[u128],
    ) -> Result<Vec<u128>, AllocError>
        requires serves { R.serves self.now.rule.now self.now.task.now.instance.now }
        requires going { IsGoing self.now.task.now self.now.progress }
        requires branch { IsBranch self.now.task.now.instance.now branch.now }
        requires room { HasRoom self.now.task.now.instance.now.wanted branch.now }
        requires present { AreNodeWeights self.now.progress.pool.entries present.now }
        requires advised { AreNodeWeights self.now.progress.pool.entries advised.now }
        ensures better { let p = self.now.task.now.instance.now in
            IfOk result (λ w. pairs_of w.items
            ≡ better p (state_of p self.now.progress) branch.now (pairs_of present.now) (pairs_of advised.now)) }
        ensures weights { IfOk result (λ w. AreNodeWeights self.now.progress.pool.entries w.items) }
    {
        let weighed = NodeWeights {
            instance: self.task.instance,
            pool: &self.progress.pool,
            weights: present,
        };
        if is_better(self.rule, &weighed, branch, advised) {
            advised.to_vec(self.alloc)
        } else {
            present.to_vec(self.alloc)
        }
    }

    /// Tells whether the weights close the incumbent's cost in the branch.
    pub(crate) fn closes_cost(&self, branch: &Branch, weights: &[u128]) -> bool
        requires serves { R.serves self.now.rule.now self.now.task.now.instance.now }
        requires going { IsGoing self.now.task.now self.now.progress }
        requires branch { IsBranch self.now.task.now.instance.now branch.now }
        requires room { HasRoom self.now.task.now.instance.now.wanted branch.now }
        requires weights { AreNodeWeights self.now.progress.pool.entries weights.now }
        ensures { let p = self.now.task.now.instance.now in
            result ≡ closes_at p (state_of p self.now.progress) branch.now (pairs_of weights.now) }
    {
        let weighed = NodeWeights {
            instance: self.task.instance,
            pool: &self.progress.pool,
            weights,
        };
        closes(self.rule, &weighed, branch, self.progress.cost)
    }

    /// The free nodes of the branch of which a side stays under these weights, each with that side. The weights do not
    /// close the incumbent's cost in the branch itself.
    pub(crate) fn fixings(
        &self,
        branch: &Branch,
        weights: &[u128],
    ) -> Result<Vec<(u32, Side)>, AllocError>
        requires serves { R.serves self.now.rule.now self.now.task.now.instance.now }
        requires going { IsGoing self.now.task.now self.now.progress }
        requires branch { IsBranch self.now.task.now.instance.now branch.now }
        requires goes_on { GoesOn (parts_of self.now.task.now.instance.now) branch.now }
        requires weights { AreNodeWeights self.now.progress.pool.entries weights.now }
        requires not_closed { let p = self.now.task.now.instance.now in
            closes_at p (state_of p self.now.progress) branch.now (pairs_of weights.now) ≡ false }
        ensures { let p = self.now.task.now.instance.now in IfOk result (λ sides. sides_as sides.items
            ≡ fixings p (state_of p self.now.progress) branch.now (pairs_of weights.now)) }
    {
        let weighed = NodeWeights {
            instance: self.task.instance,
            pool: &self.progress.pool,
            weights,
        };
        self.rule
            .fixings(self.alloc, &weighed, branch, self.progress.cost)
    }
}

//! The leaf of a branch that a stop left.

ghost use Rattle.std.specs.Prelude.{◌≡◌, ◌∷◌, [], IfOk, OnOk};
ghost use Rattle.hub_spec.specs.Trees.{IsBranch, HasRoom, preorder};
ghost use Rattle.hub_model.specs.Lines.{tree_line_of};
ghost use Rattle.search_spec.specs.Steps.{stopped_leaf};
ghost use Rattle.search_steps.specs.Weights.{AreNodeWeights, pairs_of};
ghost use Rattle.search_steps.specs.Progressing.{state_of, IsGoing, IsAt};

use crate::progress::Progress;
use crate::{NodeWeights, Rule, leaf_line};
use hub_model::{Branch, TreeLine};
use search_core::{Task, lesser, rounded_up};
use std::alloc::{AllocError, Global};

/// The leaf of a branch that a stop left, with these weights. The branch has room for the wanted hubs. Its bound goes
/// into the state's stop.
pub fn stopped_leaf<R: Rule>(
    alloc: Global,
    rule: &R,
    task: &Task,
    progress: &mut Progress,
    branch: &Branch,
    weights: &[u128],
) -> Result<TreeLine, AllocError>
    requires serves { R.serves rule.now task.now.instance.now }
    requires going { IsGoing task.now progress.old }
    requires branch { IsBranch task.now.instance.now branch.now }
    requires room { HasRoom task.now.instance.now.wanted branch.now }
    requires weights { AreNodeWeights progress.old.pool.entries weights.now }
    ensures at { let p = task.now.instance.now in OnOk result (IsAt task.now progress.old progress.new
        (stopped_leaf p branch.now (pairs_of weights.now) (state_of p progress.old)).state) }
    ensures line { let p = task.now.instance.now in IfOk result (λ line. preorder
        (stopped_leaf p branch.now (pairs_of weights.now) (state_of p progress.old)).tree ≡ tree_line_of line ∷ []) }
{
    let weighed = NodeWeights {
        instance: task.instance,
        pool: &progress.pool,
        weights,
    };
    let bound = rule.bound(&weighed, branch);
    progress.stop = Some(lesser(rounded_up(bound), progress.stop));
    leaf_line(alloc, weights)
}

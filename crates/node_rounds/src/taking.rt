//! How an outcome is applied.

ghost use Rattle.std.specs.Prelude.{◌≡◌, None, IfSome, OnOk};
ghost use Rattle.hub_spec.specs.Plans.{IsHubSet};
ghost use Rattle.hub_spec.specs.Separation.{IsOrder};
ghost use Rattle.hub_spec.specs.Trees.{IsBranch};
ghost use Rattle.search_steps.specs.Advising.{parts_of};
ghost use Rattle.search_steps.specs.Kinds.{minimal};
ghost use Rattle.search_steps.specs.Progressing.{state_of, IsGoing, IsAt};
ghost use Rattle.search_spec.specs.Turns.{with_set, taken};
ghost use Rattle.node_rounds.specs.Outcomes.{pending_of, outcome_of, AreSumsOver, IsOutcomeOf};
ghost use Rattle.node_rounds.specs.Fronts.{IsFront, IsTaken};

use crate::fronts::{RoundState, add_line, add_node};
use crate::outcomes::{Outcome, Pending};
use crate::splitting::split_up;
use cut_pool::CutSums;
use hub_model::HubSet;
use search_core::Task;
use search_steps::{Progress, Separated, Separator, keep, number_of, separate};
use std::alloc::{AllocError, Global};

/// Takes the outcome of a node: what comes in the node's place is added to the front.
pub(crate) fn take<S: Separator>(
    alloc: Global,
    task: &Task,
    separator: &mut S,
    front: &mut RoundState,
    node: Pending,
    outcome: Outcome,
) -> Result<(), AllocError>
    requires plain { task.now.instance.now.wanted ≡ None }
    requires minimal { S.kind ≡ minimal }
    requires ready { S.ready separator.old }
    requires front { IsFront task.now front.old }
    requires branch { IsBranch task.now.instance.now node.branch }
    requires outcome { IsOutcomeOf task.now.instance.now front.old.progress.pool.entries node outcome }
    ensures ready { S.ready separator.new }
    ensures taken { let p = task.now.instance.now in OnOk result (IsTaken task.now front.old front.new
        (taken p (parts_of p) task.now.nodes (pending_of node) (outcome_of outcome) (state_of p front.old.progress))) }
{
    let Pending {
        branch,
        weights: _,
        waits,
    } = node;
    match outcome {
        Outcome::Ends(line) => add_line(task, front, line),
        Outcome::Ask {
            set,
            order,
            weights,
            waited,
            sums,
        } => {
            let progress = &mut front.progress;
            with_set(alloc, task, separator, progress, set, order, sums)?;
            let waits = if waited { waits + 1 } else { waits };
            let asking = Pending {
                branch,
                weights,
                waits,
            };
            add_node(task, front, asking)
        }
        Outcome::Split {
            weights,
            fixings,
            advice,
        } => {
            let split = Pending {
                branch,
                weights,
                waits,
            };
            split_up(alloc, task, front, &fixings, &advice, split)
        }
    }
}

// Separates the set over the order, unless it is known by now. Where the sums of its cut are there already, they are kept.
fn with_set<S: Separator>(
    alloc: Global,
    task: &Task,
    separator: &mut S,
    progress: &mut Progress,
    set: HubSet,
    order: Vec<u32>,
    sums: Option<CutSums>,
) -> Result<(), AllocError>
    requires minimal { S.kind ≡ minimal }
    requires ready { S.ready separator.old }
    requires going { IsGoing task.now progress.old }
    requires set { IsHubSet task.now.instance.now set }
    requires order { IsOrder task.now.instance.now set order.items }
    requires sums { IfSome sums (AreSumsOver task.now.instance.now set order.items) }
    ensures ready { S.ready separator.new }
    ensures at { let p = task.now.instance.now in OnOk result (IsAt task.now progress.old progress.new
        (with_set (parts_of p) set order.items (state_of p progress.old))) }
{
    if number_of(progress, &set).is_some() {
        return Ok(());
    }
    match sums {
        Some(sums) => keep(alloc, task, progress, Separated::Sums(sums), order),
        None => separate(alloc, task, progress, separator, set, order),
    }
}

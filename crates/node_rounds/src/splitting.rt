//! How the outcome of a node that branches is applied.

ghost use Rattle.std.specs.Prelude.{◌≡◌, ◌≤◌, None, length, OnOk};
ghost use Rattle.frac_master.specs.Advice.{advice_of_code};
ghost use Rattle.search_steps.specs.Advising.{told_by, parts_of};
ghost use Rattle.search_steps.specs.Weights.{sides_as};
ghost use Rattle.search_steps.specs.Progressing.{state_of};
ghost use Rattle.search_steps.specs.FixingsLeft.{AreOnFree};
ghost use Rattle.search_spec.specs.Turns.{halved, after_fixings, split_up};
ghost use Rattle.node_rounds.specs.Outcomes.{pending_of, IsPendingOf};
ghost use Rattle.node_rounds.specs.Fronts.{IsFront, IsTaken};

use crate::fronts::{RoundState, add_branch, add_line, add_node, stop_at};
use crate::outcomes::Pending;
use frac_master::Advice;
use leaf_bound::Side;
use search_core::Task;
use search_steps::{Plain, Rule, leaf_line, may_split, nearest};
use std::alloc::{AllocError, Global};

/// Makes the fixings one by one, each with a leaf as the other child, and then parts the branch that is left.
#[cycle(split)]
pub(crate) fn split_up(
    alloc: Global,
    task: &Task,
    front: &mut RoundState,
    fixings: &[(u32, Side)],
    advice: &Advice,
    node: Pending,
) -> Result<(), AllocError>
    requires plain { task.now.instance.now.wanted ≡ None }
    requires front { IsFront task.now front.old }
    requires node { IsPendingOf task.now.instance.now front.old.progress.pool.entries node }
    requires free { AreOnFree node.branch (sides_as fixings.now) }
    ensures { let p = task.now.instance.now in OnOk result (IsTaken task.now front.old front.new
        (split_up p (parts_of p) task.now.nodes (told_by (advice_of_code advice.now)) (sides_as fixings.now) (pending_of node)
        (state_of p front.old.progress))) }
{
    let (k, side, rest) = match fixings {
        [] => return after_fixings(alloc, task, front, advice, node),
        [(k, side), rest @ ..] => (*k, *side, rest),
    };
    if !may_split(task, &front.progress) {
        return stop_at(alloc, task, front, &node);
    }
    add_branch(task, front, k)?;
    let leaf = leaf_line(alloc, &node.weights)?;
    let Pending {
        branch,
        weights,
        waits,
    } = node;
    match side {
        Side::In => {
            let child = branch.open_child(alloc, k)?;
            let kept = Pending {
                branch: child,
                weights,
                waits,
            };
            split_up(alloc, task, front, rest, advice, kept)?;
            add_line(task, front, leaf)
        }
        Side::Out => {
            add_line(task, front, leaf)?;
            let child = branch.closed_child(alloc, k)?;
            let kept = Pending {
                branch: child,
                weights,
                waits,
            };
            split_up(alloc, task, front, rest, advice, kept)
        }
    }
}

// Once the fixings are made: a line ends the branch, or just one set is left in it and it stays pending, or it is halved.
fn after_fixings(
    alloc: Global,
    task: &Task,
    front: &mut RoundState,
    advice: &Advice,
    node: Pending,
) -> Result<(), AllocError>
    requires plain { task.now.instance.now.wanted ≡ None }
    requires front { IsFront task.now front.old }
    requires node { IsPendingOf task.now.instance.now front.old.progress.pool.entries node }
    ensures { let p = task.now.instance.now in OnOk result (IsTaken task.now front.old front.new
        (after_fixings p (parts_of p) task.now.nodes (told_by (advice_of_code advice.now)) (pending_of node) (state_of p front.old.progress))) }
{
    if let Some(line) = Plain.end(&node.branch) {
        return add_line(task, front, line);
    }
    if node.branch.free().is_empty() {
        return add_node(task, front, node);
    }
    halved(alloc, task, front, advice, node)
}

// Parts the branch on the free node nearest to a half, if two nodes more are allowed.
fn halved(
    alloc: Global,
    task: &Task,
    front: &mut RoundState,
    advice: &Advice,
    node: Pending,
) -> Result<(), AllocError>
    requires plain { task.now.instance.now.wanted ≡ None }
    requires front { IsFront task.now front.old }
    requires node { IsPendingOf task.now.instance.now front.old.progress.pool.entries node }
    requires some_free { 1 ≤ length node.branch.free }
    ensures { let p = task.now.instance.now in OnOk result (IsTaken task.now front.old front.new
        (halved p (parts_of p) task.now.nodes (told_by (advice_of_code advice.now)) (pending_of node) (state_of p front.old.progress))) }
{
    if !may_split(task, &front.progress) {
        return stop_at(alloc, task, front, &node);
    }
    let k = nearest(advice, &node.branch);
    let opened = node.branch.open_child(alloc, k)?;
    let closed = node.branch.closed_child(alloc, k)?;
    let weights = node.weights.to_vec(alloc)?;
    add_branch(task, front, k)?;
    let first = Pending {
        branch: opened,
        weights,
        waits: 0,
    };
    add_node(task, front, first)?;
    let second = Pending {
        branch: closed,
        weights: node.weights,
        waits: 0,
    };
    add_node(task, front, second)
}

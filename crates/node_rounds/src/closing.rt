//! The end of a search: the pending nodes become leaves.

ghost use Rattle.std.specs.Prelude.{◌≡◌, ◌∷◌, [], None, IfOk, OnOk};
ghost use Rattle.hub_spec.specs.Trees.{preorder};
ghost use Rattle.hub_model.specs.Lines.{tree_line_of};
ghost use Rattle.cut_pool.specs.Findings.{lines_of};
ghost use Rattle.search_spec.specs.Steps.{unless_ended, stopped_leaf};
ghost use Rattle.search_steps.specs.Advising.{parts_of};
ghost use Rattle.search_steps.specs.Weights.{pairs_of};
ghost use Rattle.search_steps.specs.Progressing.{state_of, IsGoing, IsAt};
ghost use Rattle.search_spec.specs.Turns.{closed_up};
ghost use Rattle.node_rounds.specs.Outcomes.{IsPendingOf};
ghost use Rattle.node_rounds.specs.Left.{standing_of, IsLeft};

use crate::left::{Left, TreeSlot};
use crate::outcomes::Pending;
use hub_model::TreeLine;
use search_core::{Task, add_line};
use search_steps::{Plain, Progress, Rule, stopped_leaf};
use std::alloc::{AllocError, Global};

/// Ends each node that is left, and adds all lines to the tree.
pub(crate) fn close_up(
    alloc: Global,
    task: &Task,
    left: Left,
    progress: &mut Progress,
) -> Result<(), AllocError>
    requires plain { task.now.instance.now.wanted ≡ None }
    requires left { IsLeft task.now progress.old left }
    ensures state { let p = task.now.instance.now in let t = standing_of p progress.old left in
        OnOk result (state_of p progress.new ≡ (closed_up p (parts_of p) t.places t.state).state) }
    ensures lines { let p = task.now.instance.now in let t = standing_of p progress.old left in
        OnOk result (lines_of progress.new.lines.items ≡ (closed_up p (parts_of p) t.places t.state).lines) }
    ensures going { OnOk result (IsGoing task.now progress.new) }
{
    let Left {
        mut marks,
        mut nodes,
    } = left;
    while let Some(mark) = marks.pop() {
        let line = match mark {
            TreeSlot::Line(line) => line,
            TreeSlot::Node => match nodes.pop() {
                Some(node) => end_node(alloc, task, progress, &node)?,
                None => unreachable!(),
            },
        };
        add_line(&mut progress.lines, line)?;
    }
    Ok(())
}

// The line of a node that is still pending: that of its end, or the leaf that the stop makes of it.
fn end_node(
    alloc: Global,
    task: &Task,
    progress: &mut Progress,
    node: &Pending,
) -> Result<TreeLine, AllocError>
    requires plain { task.now.instance.now.wanted ≡ None }
    requires going { IsGoing task.now progress.old }
    requires node { IsPendingOf task.now.instance.now progress.old.pool.entries node.now }
    ensures at { let p = task.now.instance.now in let s = state_of p progress.old in let b = node.now.branch in
        OnOk result (IsAt task.now progress.old progress.new
        (unless_ended ((parts_of p).barren b) s (stopped_leaf p b (pairs_of node.now.weights.items) s)).state) }
    ensures line { let p = task.now.instance.now in let s = state_of p progress.old in let b = node.now.branch in
        IfOk result (λ line. preorder (unless_ended ((parts_of p).barren b) s (stopped_leaf p b (pairs_of node.now.weights.items) s)).tree
        ≡ tree_line_of line ∷ []) }
{
    match Plain.end(&node.branch) {
        Some(line) => Ok(line),
        None => stopped_leaf(alloc, &Plain, task, progress, &node.branch, &node.weights),
    }
}

//! The results of a round so far.

ghost use Rattle.std.specs.Prelude.{◌≡◌, None, [], ◌∷◌, OnOk};
ghost use Rattle.hub_spec.specs.Trees.{branch_on};
ghost use Rattle.hub_model.specs.Lines.{tree_line_of};
ghost use Rattle.search_spec.specs.Steps.{two_more};
ghost use Rattle.search_steps.specs.Progressing.{state_of};
ghost use Rattle.search_spec.specs.Places.{line, open_at};
ghost use Rattle.search_spec.specs.Turns.{stops_at};
ghost use Rattle.search_steps.specs.Weights.{pairs_of};
ghost use Rattle.node_rounds.specs.Outcomes.{pending_of, IsPendingOf};
ghost use Rattle.node_rounds.specs.Fronts.{IsFront, IsTaken};

use crate::outcomes::Pending;
use hub_model::TreeLine;
use search_core::Task;
use search_steps::{Plain, Progress, stopped_leaf, two_more};
use std::alloc::{AllocError, Global};

/// A place of the tree: a finished line, or a node that is pending.
#[derive(Drop)]
pub(crate) enum Place {
    /// A finished line.
    Line(TreeLine),
    /// A pending node.
    Open(Pending),
}

/// What the search has, and what came of the nodes of a round so far, in preorder.
#[derive(Drop)]
pub(crate) struct RoundState {
    pub(crate) progress: Progress,
    pub(crate) places: Vec<Place>,
}

/// Adds a finished line.
pub(crate) fn add_line(task: &Task, front: &mut RoundState, own: TreeLine) -> Result<(), AllocError>
    requires front { IsFront task.now front.old }
    ensures { let p = task.now.instance.now in OnOk result (IsTaken task.now front.old front.new
        (record { state = state_of p front.old.progress; places = line (tree_line_of own) ∷ [] })) }
{
    front.places.push(Place::Line(own))?;
    Ok(())
}

/// Adds a pending node.
pub(crate) fn add_node(task: &Task, front: &mut RoundState, node: Pending) -> Result<(), AllocError>
    requires front { IsFront task.now front.old }
    requires node { IsPendingOf task.now.instance.now front.old.progress.pool.entries node }
    ensures { let p = task.now.instance.now in OnOk result (IsTaken task.now front.old front.new
        (record { state = state_of p front.old.progress; places = open_at (pending_of node) ∷ [] })) }
{
    front.places.push(Place::Open(node))?;
    Ok(())
}

/// Adds the line of a branch on the node, which makes two nodes more.
pub(crate) fn add_branch(task: &Task, front: &mut RoundState, k: u32) -> Result<(), AllocError>
    requires front { IsFront task.now front.old }
    ensures { let p = task.now.instance.now in OnOk result (IsTaken task.now front.old front.new
        (record { state = two_more (state_of p front.old.progress); places = line (branch_on k) ∷ [] })) }
{
    two_more(&mut front.progress)?;
    front.places.push(Place::Line(TreeLine::BranchOn(k)))?;
    Ok(())
}

/// Adds the leaf that a stop makes of the node.
pub(crate) fn stop_at(
    alloc: Global,
    task: &Task,
    front: &mut RoundState,
    node: &Pending,
) -> Result<(), AllocError>
    requires plain { task.now.instance.now.wanted ≡ None }
    requires front { IsFront task.now front.old }
    requires node { IsPendingOf task.now.instance.now front.old.progress.pool.entries node.now }
    ensures { let p = task.now.instance.now in OnOk result (IsTaken task.now front.old front.new
        (stops_at p node.now.branch (pairs_of node.now.weights.items) (state_of p front.old.progress))) }
{
    let line = stopped_leaf(
        alloc,
        &Plain,
        task,
        &mut front.progress,
        &node.branch,
        &node.weights,
    )?;
    front.places.push(Place::Line(line))?;
    Ok(())
}

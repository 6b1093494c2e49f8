//! What is left of the tree.

ghost use Rattle.std.specs.Prelude.{◌≡◌, ◌≤◌, List, [], ◌++◌, length, All, OnOk};
ghost use Rattle.hub_spec.specs.Limits.{most_tree_lines};
ghost use Rattle.hub_spec.specs.Problem.{Problem};
ghost use Rattle.cut_pool.specs.Entries.{Entry};
ghost use Rattle.node_rounds.specs.Outcomes.{IsPendingOf};
ghost use Rattle.node_rounds.specs.Fronts.{places_of, IsPlaceOf};
ghost use Rattle.node_rounds.specs.Left.{left_of, lines_first, AreMatched};

use crate::fronts::Place;
use crate::outcomes::Pending;
use hub_model::TreeLine;
use search_core::add_line;
use std::alloc::AllocError;

/// What stands at a place of the tree: a finished line, or the next of the nodes.
#[derive(Drop)]
pub(crate) enum TreeSlot {
    /// A finished line.
    Line(TreeLine),
    /// The next pending node.
    Node,
}

/// What is left of the tree from its first pending node on, the first place last: its marks, and its nodes, which lie side
/// by side.
#[derive(Drop)]
pub(crate) struct Left {
    pub(crate) marks: Vec<TreeSlot>,
    pub(crate) nodes: Vec<Pending>,
}

/// Puts all these places before what is left.
pub(crate) fn put_back(left: &mut Left, places: &mut Vec<Place>) -> Result<(), AllocError>
    requires matched { AreMatched left.old.marks.items left.old.nodes.items }
    ensures left { OnOk result (left_of left.new ≡ places_of places.old.items ++ left_of left.old) }
    ensures none { OnOk result (places.new.items ≡ []) }
    ensures nodes { (p : Problem) (entries : List Entry) → All (IsPlaceOf p entries) places.old.items
        → All (IsPendingOf p entries) left.old.nodes.items → OnOk result (All (IsPendingOf p entries) left.new.nodes.items) }
    ensures matched { OnOk result (AreMatched left.new.marks.items left.new.nodes.items) }
{
    while let Some(place) = places.pop() {
        match place {
            Place::Line(line) => left.marks.push(TreeSlot::Line(line))?,
            Place::Open(node) => {
                left.marks.push(TreeSlot::Node)?;
                left.nodes.push(node)?;
            }
        }
    }
    Ok(())
}

/// Moves the lines before the first node to the finished lines of the tree.
pub(crate) fn settle(left: &mut Left, lines: &mut Vec<TreeLine>) -> Result<(), AllocError>
    requires matched { AreMatched left.old.marks.items left.old.nodes.items }
    requires few { length lines.old.items ≤ most_tree_lines }
    ensures places { OnOk result (lines_first lines.new.items (left_of left.new) ≡ lines_first lines.old.items (left_of left.old)) }
    ensures nodes { OnOk result (left.new.nodes ≡ left.old.nodes) }
    ensures matched { OnOk result (AreMatched left.new.marks.items left.new.nodes.items) }
    ensures few { OnOk result (length lines.new.items ≤ most_tree_lines) }
{
    while let Some(mark) = left.marks.pop() {
        match mark {
            TreeSlot::Line(line) => add_line(lines, line)?,
            TreeSlot::Node => {
                left.marks.push(TreeSlot::Node)?;
                return Ok(());
            }
        }
    }
    Ok(())
}

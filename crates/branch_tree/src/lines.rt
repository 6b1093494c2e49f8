//! The tree lines that the search adds.

ghost use Rattle.std.specs.Prelude.{◌≡◌, ◌≤◌, ◌+◌, OnOk};
ghost use Rattle.hub_spec.specs.Limits.{most_tree_lines};
ghost use Rattle.hub_spec.specs.Trees.{branch_on};
ghost use Rattle.hub_model.specs.Lines.{tree_line_of};
ghost use Rattle.branch_tree.specs.Lines.{HasLine};

use hub_model::TreeLine;
use search_steps::{Progress, two_more};
use std::alloc::AllocError;

/// Adds a line, unless the tree is as long as a certificate's can be.
pub(crate) fn add_line(progress: &mut Progress, line: TreeLine) -> Result<(), AllocError>
    ensures { OnOk result (HasLine progress.old progress.new (tree_line_of line) progress.old.made progress.old.stop) }
{
    search_core::add_line(&mut progress.lines, line)
}

/// Adds the line of a branch on the node, which makes two nodes more.
pub(crate) fn split_on(progress: &mut Progress, k: u32) -> Result<(), AllocError>
    requires few { progress.old.made ≤ most_tree_lines }
    ensures line { OnOk result (HasLine progress.old progress.new (branch_on k) (progress.old.made + 2) progress.old.stop) }
    ensures few { OnOk result (progress.old.made + 2 ≤ most_tree_lines) }
{
    two_more(progress)?;
    add_line(progress, TreeLine::BranchOn(k))
}

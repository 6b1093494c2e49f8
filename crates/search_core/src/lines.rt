//! Lines of a tree.

ghost use Rattle.std.specs.Prelude.{◌≡◌, ◌≤◌, [], ◌∷◌, ◌++◌, length, IfOk, OnOk};
ghost use Rattle.hub_spec.specs.Limits.{most_tree_lines};
ghost use Rattle.hub_spec.specs.Trees.{leaf_of};
ghost use Rattle.hub_model.specs.Lines.{tree_line_of};
ghost use Rattle.search_spec.specs.States.{denominator, whole_on};

use crate::WHOLE_WEIGHT;
use hub_model::{MOST_TREE_LINES, Mix, TreeLine};
use std::alloc::{AllocError, Global};

/// Appends a line. It fails where memory runs out, or where the tree has as many lines as a certificate can have.
pub fn add_line(lines: &mut Vec<TreeLine>, line: TreeLine) -> Result<(), AllocError>
    ensures added { OnOk result (lines.new.items ≡ lines.old.items ++ line ∷ []) }
    ensures few { OnOk result (length lines.new.items ≤ most_tree_lines) }
{
    if lines.len() >= MOST_TREE_LINES {
        return Err(AllocError);
    }
    lines.push(line)?;
    Ok(())
}

/// The leaf that is fathomed by this cut alone, with the whole weight on it.
pub fn whole_leaf(alloc: Global, number: u64) -> Result<TreeLine, AllocError>
    requires { 1 ≤ number }
    ensures { IfOk result (λ line. tree_line_of line ≡ leaf_of denominator (whole_on number)) }
{
    let whole = WHOLE_WEIGHT as i128;
    let mut weights = Vec::new(alloc);
    weights.push((number as i128, whole))?;
    Ok(TreeLine::Leaf(Mix::new(whole, weights)))
}

//! The nodes of a branch that are not closed, and the first commodity for which they are infeasible.

ghost use Rattle.std.specs.Prelude.{◌≡◌, [], ◌∷◌, None, option_map, IfOk};
ghost use Rattle.hub_spec.specs.Trees.{IsBranch, preorder};
ghost use Rattle.hub_model.specs.Lines.{tree_line_of};
ghost use Rattle.search_spec.specs.Choices.{all_open, barren_end, blocked_end};

use hub_model::{Branch, Instance, TreeLine};
use leg_duals::lacking;
use std::alloc::{AllocError, Global};

/// The hubs of the branch with all its free nodes, ascending.
pub fn all_open(alloc: Global, branch: &Branch) -> Result<Vec<u32>, AllocError>
    ensures { IfOk result (λ nodes. nodes.items ≡ all_open branch.now) }
{
    let mut open = branch.inside().to_vec(alloc)?;
    open.extend_from_slice(branch.free())?;
    open.sort_unstable();
    Ok(open)
}

/// The line of the first commodity for which all open nodes of the branch together are infeasible, if there is one. The
/// branch has no end by its numbers. Where no length is limited there is no such commodity, and it takes no memory.
pub fn blocked_line(
    alloc: Global,
    instance: &Instance,
    branch: &Branch,
) -> Result<Option<TreeLine>, AllocError>
    requires branch { IsBranch instance.now branch.now }
    requires no_end { barren_end instance.now.wanted branch.now ≡ None }
    ensures { let p = instance.now in
        IfOk result (λ line. option_map (λ l. tree_line_of l ∷ []) line ≡ option_map preorder (blocked_end p branch.now)) }
{
    if instance.length_limit().is_none() {
        return Ok(None);
    }
    let open = all_open(alloc, branch)?;
    let Some((i, j)) = lacking(instance, &open) else {
        return Ok(None);
    };
    Ok(Some(TreeLine::Block { i, j }))
}

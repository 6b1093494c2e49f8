//! Branches that end without a leaf: no wanted hub set is left. And the only set, where one is left.

ghost use Rattle.std.specs.Prelude.{◌≡◌, ◌≤◌, length, None, IfOk, IfSome};
ghost use Rattle.hub_spec.specs.Trees.{IsBranch};
ghost use Rattle.hub_model.specs.Lines.{tree_line_of};
ghost use Rattle.ascent_search.specs.Ends.{IsBarren, IsOpen, IsLastSet};

use hub_model::{Branch, HubSet, Instance, TreeLine};
use p_hub::{blocked_line, end_by_number, only_set};
use std::alloc::{AllocError, Global};

/// The line of a branch without a wanted hub set, if it is one: every candidate is closed, the number of hubs is
/// impossible, or hubs and free nodes together are infeasible for a commodity.
pub(crate) fn barren_line(
    alloc: Global,
    instance: &Instance,
    branch: &Branch,
) -> Result<Option<TreeLine>, AllocError>
    requires { IsBranch instance.now branch.now }
    ensures barren { IfOk result (λ line. IfSome line (λ l. IsBarren instance.now branch.now (tree_line_of l))) }
    ensures open { IfOk result (λ line. line ≡ None → IsOpen instance.now branch.now) }
{
    if let Some(line) = end_by_number(instance.wanted(), branch) {
        return Ok(Some(line));
    }
    blocked_line(alloc, instance, branch)
}

/// The only wanted hub set of the branch, if one is left. With a wanted number it is the hubs, or all nodes that are
/// not closed, where these have that number. Else it is the hubs, once no node is free.
pub(crate) fn last_set(
    alloc: Global,
    instance: &Instance,
    branch: &Branch,
) -> Result<Option<HubSet>, AllocError>
    requires branch { IsBranch instance.now branch.now }
    requires open { IsOpen instance.now branch.now }
    ensures last { IfOk result (λ set. IfSome set (IsLastSet instance.now branch.now)) }
    ensures some_free { IfOk result (λ set. set ≡ None → 1 ≤ length branch.now.free) }
{
    let only = only_set(alloc, instance, branch)?;
    match only {
        None => Ok(None),
        Some(hubs) => Ok(Some(HubSet::of(alloc, &hubs)?)),
    }
}

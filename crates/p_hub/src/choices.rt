//! The choices of a search that depend on the wanted number of hubs.

ghost use Rattle.std.specs.Prelude.{◌≡◌, [], ◌∷◌, option_map, IfOk};
ghost use Rattle.hub_spec.specs.Problem.{IsProblem};
ghost use Rattle.hub_spec.specs.Trees.{HasRoom, preorder};
ghost use Rattle.hub_model.specs.Lines.{tree_line_of};
ghost use Rattle.leaf_bound.specs.Numbers.{AreWeightingNumbers, IsBranchWithin, weighting_of};
ghost use Rattle.leaf_bound.specs.Weighing.{most_bound, IsWithin};
ghost use Rattle.search_spec.specs.Choices.{barren_end, only_set};
ghost use Rattle.search_spec.specs.Costs.{first_hubs};
ghost use Rattle.p_hub.specs.Counted.{bound_for};

use crate::bounds::bound_p;
use crate::openings::all_open;
use hub_model::{Branch, Instance, TreeLine};
use leaf_bound::{Weighting, bound};
use std::alloc::{AllocError, Global};

/// The hubs of the first incumbent: all candidates, or the first p where exactly p hubs are wanted.
pub fn first_hubs(instance: &Instance) -> &[u32]
    ensures problem { IsProblem instance.now }
    ensures first { result.now ≡ first_hubs instance.now }
{
    let candidates = instance.candidates();
    match instance.wanted() {
        None => candidates,
        Some(hubs) => &candidates[..hubs as usize],
    }
}

/// The line of a branch that has no hub set because of its numbers of hubs and free nodes, if it has none. For exactly
/// p hubs it has more than p hubs inside, or fewer than p open nodes. For any number of hubs it has no open node.
pub fn end_by_number(wanted: Option<u32>, branch: &Branch) -> Option<TreeLine>
    ensures { option_map (λ line. tree_line_of line ∷ []) result ≡ option_map preorder (barren_end wanted branch.now) }
{
    let inside = branch.inside().len();
    let open = inside + branch.free().len();
    match wanted {
        None => {
            if open == 0 {
                return Some(TreeLine::Empty);
            }
            None
        }
        Some(hubs) => {
            if inside > hubs as usize || open < hubs as usize {
                return Some(TreeLine::Count);
            }
            None
        }
    }
}

/// The only hub set of a branch, if it has just one. For exactly p hubs it is the branch's hubs where they are p, or
/// all its open nodes where those are p. For any number of hubs it is the branch's hubs once no node is free. For a
/// branch that ends it may be empty.
pub fn only_set(
    alloc: Global,
    instance: &Instance,
    branch: &Branch,
) -> Result<Option<Vec<u32>>, AllocError>
    ensures problem { IsProblem instance.now }
    ensures only { IfOk result (λ set. option_map (λ hubs. hubs.items) set ≡ only_set instance.now.wanted branch.now) }
{
    let inside = branch.inside();
    let free = branch.free();
    match instance.wanted() {
        None => {
            if free.is_empty() {
                return Ok(Some(inside.to_vec(alloc)?));
            }
            Ok(None)
        }
        Some(hubs) => {
            if inside.len() == hubs as usize {
                return Ok(Some(inside.to_vec(alloc)?));
            }
            if inside.len() + free.len() == hubs as usize {
                return Ok(Some(all_open(alloc, branch)?));
            }
            Ok(None)
        }
    }
}

/// The bound of the branch, which has room, under these weights, in 10^-12, times the denominator. It is that for the
/// wanted number of hubs, if there is one.
pub fn bound_by_number(instance: &Instance, weighting: &Weighting, branch: &Branch) -> i128
    requires numbers { AreWeightingNumbers weighting.now }
    requires nodes { IsBranchWithin weighting.now branch.now }
    requires room { HasRoom instance.now.wanted branch.now }
    ensures value { result ≡ bound_for instance.now.wanted (weighting_of weighting.now) branch.now }
    ensures limit { IsWithin most_bound result }
{
    match instance.wanted() {
        None => bound(weighting, branch),
        Some(hubs) => bound_p(weighting, branch, hubs),
    }
}

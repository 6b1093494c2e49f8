//! The hub set to separate, and the node to branch on, by the master's point.

ghost use Rattle.std.specs.Prelude.{◌≡◌, ◌≤◌, ◌&&◌, ◌||◌, ◌+◌, ◌*◌, ◌*ℤ◌, ◌-ℤ◌, pos, length, slice_index_or, unsigned_abs, int_le, int_lt, nat_lt, Contains, None, IfOk};
ghost use Rattle.std.specs.Int.{int_rem_euclid};
ghost use Rattle.std.specs.List.Sorted.{IsStrictlyIncreasing};
ghost use Rattle.hub_spec.specs.Problem.{IsProblem};
ghost use Rattle.hub_spec.specs.Plans.{IsCandidateSet};
ghost use Rattle.hub_spec.specs.Trees.{IsBranch};
ghost use Rattle.hub_model.specs.Amounts.{natural};
ghost use Rattle.search_spec.specs.Choices.{has_node, first_best, is_half, rounded, picked, pick_for, nearest_half, from_half};
ghost use Rattle.frac_master.specs.Advice.{advice_of_code};
ghost use Rattle.search_steps.specs.Advising.{told_by};

use assign_sub::lacking;
use frac_master::Advice;
use hub_model::{Branch, HubSet, Instance, unsigned};
use p_hub::all_open;
use std::alloc::{AllocError, Global};

/// The hub set to separate where any number of hubs will do: the picked nodes, or all open nodes where the picked ones
/// are infeasible for a commodity. The branch has a free node.
pub(crate) fn pick_any(
    alloc: Global,
    instance: &Instance,
    advice: &Advice,
    branch: &Branch,
) -> Result<HubSet, AllocError>
    requires branch { IsBranch instance.now branch.now }
    requires some_free { 1 ≤ length branch.now.free }
    ensures { let a = told_by (advice_of_code advice.now) in IfOk result (λ set. set ≡ pick_for instance.now None a branch.now) }
{
    let picked = picked(alloc, instance, advice, branch)?;
    let set = HubSet::of(alloc, &picked)?;
    if lacking(instance, &set).is_none() {
        return Ok(set);
    }
    let open = all_open(alloc, branch)?;
    HubSet::of(alloc, &open)
}

// The hubs of the branch, and its free nodes whose point is at least half of the scale; where that is no node, the free
// node with the greatest point, of equal ones the least.
fn picked(
    alloc: Global,
    instance: &Instance,
    advice: &Advice,
    branch: &Branch,
) -> Result<Vec<u32>, AllocError>
    requires { IsBranch instance.now branch.now }
    ensures picked { IfOk result (λ set. set.items ≡ picked instance.now (told_by (advice_of_code advice.now)) branch.now) }
    ensures set { IfOk result (λ set. 1 ≤ length branch.now.free → IsCandidateSet instance.now set.items) }
{
    let mut set = rounded(alloc, instance, advice, branch)?;
    if set.is_empty() {
        set.push(first_greatest(&advice.point, branch.free()))?;
    }
    Ok(set)
}

// The candidates that are hubs of the branch, or free and at least half open.
fn rounded(
    alloc: Global,
    instance: &Instance,
    advice: &Advice,
    branch: &Branch,
) -> Result<Vec<u32>, AllocError>
    ensures problem { IsProblem instance.now }
    ensures is { IfOk result (λ set. set.items ≡ rounded instance.now (told_by (advice_of_code advice.now)) branch.now) }
{
    let candidates = instance.candidates().iter().copied();
    candidates
        .filter(|k| is_rounded(advice, branch, *k))
        .collect(alloc)
}

// Whether the node is a hub of the branch, or free and at least half open.
fn is_rounded(advice: &Advice, branch: &Branch, k: u32) -> bool
    ensures { result ≡ (has_node branch.now.inside k || (has_node branch.now.free k && is_half (told_by (advice_of_code advice.now)) k)) }
{
    has_node(branch.inside(), k) || (has_node(branch.free(), k) && is_half(advice, k))
}

// Whether the ascending list has the node.
fn has_node(nodes: &[u32], k: u32) -> bool
    requires { IsStrictlyIncreasing nodes.now }
    ensures { result ≡ has_node nodes.now k }
{
    nodes.binary_search(&k).is_ok()
}

// Whether the node's point, doubled, is at least the scale.
fn is_half(advice: &Advice, k: u32) -> bool
    ensures { result ≡ is_half (told_by (advice_of_code advice.now)) k }
{
    // The point is compared with half of the scale, rounded up, since its double might not fit.
    let scale = advice.scale;
    point_of(&advice.point, k) >= scale.div_euclid(2) + scale.rem_euclid(2)
}

// The node's number, or 0 if the point has none for it.
fn point_of(point: &[i128], k: u32) -> i128
    ensures { result ≡ slice_index_or point.now k (pos 0) }
{
    point.get(k as usize).copied().unwrap_or(0)
}

// The first of the nodes with the greatest point, 0 for none.
fn first_greatest(point: &[i128], nodes: &[u32]) -> u32
    ensures { result ≡ first_best (λ k m. int_lt (slice_index_or point.now m (pos 0)) (slice_index_or point.now k (pos 0))) nodes.now }
{
    if nodes.is_empty() {
        return 0;
    }
    let mut best = nodes[0];
    for k in &nodes[1..] {
        if point_of(point, *k) > point_of(point, best) {
            best = *k;
        }
    }
    best
}

/// The node to branch on: the free one whose number in the point is nearest to half of the scale, with ties to the
/// least node.
pub fn nearest(advice: &Advice, branch: &Branch) -> u32
    requires { 1 ≤ length branch.now.free }
    ensures nearest { result ≡ nearest_half (told_by (advice_of_code advice.now)) branch.now }
    ensures free { Contains branch.now.free result }
{
    first_nearest(advice, branch.free())
}

fn first_nearest(advice: &Advice, nodes: &[u32]) -> u32
    requires { 1 ≤ length nodes.now }
    ensures { let a = told_by (advice_of_code advice.now) in result ≡ first_best (λ k m. nat_lt (from_half a k) (from_half a m)) nodes.now }
{
    let mut best = nodes[0];
    for k in &nodes[1..] {
        if halves_from_half(advice, *k) < halves_from_half(advice, best) {
            best = *k;
        }
    }
    best
}

// How far the node's point, doubled, is from the scale: half of that, rounded down, which always fits.
fn halves_from_half(advice: &Advice, k: u32) -> u128
    ensures { 2 * result + natural (int_rem_euclid advice.now.scale (pos 2)) ≡ from_half (told_by (advice_of_code advice.now)) k }
{
    let point = point_of(&advice.point, k);
    let half = advice.scale.div_euclid(2);
    let odd = unsigned(advice.scale.rem_euclid(2));
    // For an odd scale its half is half a step above `half`.
    if point > half {
        point.abs_diff(half) - odd
    } else {
        point.abs_diff(half)
    }
}

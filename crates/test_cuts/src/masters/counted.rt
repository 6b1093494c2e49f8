//! For exactly p hubs: bounds of branches, their cutoffs and fixings, and the hubs that a point picks (`p_hub`).

ghost use Rattle.std.specs.Prelude.{◌≡◌, ◌≤◌, ◌^◌, false, IsTrue, Some};
ghost use Rattle.hub_spec.specs.Trees.{HasRoom};
ghost use Rattle.leaf_bound.specs.Numbers.{AreWeightingNumbers, IsBranchWithin, weighting_of};
ghost use Rattle.p_hub.specs.Fixing.{counted_closes, IsBetween};

use super::fields::{Lent, branch, cuts_of, numbers, parted};
use super::weighing::serve;
use hub_model::Branch;
use leaf_bound::Weighting;
use p_hub::{bound_p, closes_p, fix_p, pick};
use std::alloc::{AllocError, Global};

// The greatest cutoff that there may be.
const MOST_TARGET: u128 = 1_000_000_000_000_000_000_000_000_000_000;

/// The bound of the line's branch, and for each cutoff whether the bound fathoms it, and else which candidates it
/// fixes.
pub(crate) fn told(alloc: Global, text: &str) -> Result<String, AllocError> {
    let (p, rest) = parted(text, ';');
    let (signs, rest) = parted(rest, ';');
    let (targets, rest) = parted(rest, ';');
    let (weights, rest) = parted(rest, ';');
    let targets = numbers(alloc, targets)?;
    let weights = numbers(alloc, weights)?;
    let lent = cuts_of(alloc, rest)?;
    match branch(alloc, signs.trim())? {
        Some(branch) => weighed(alloc, &lent, &weights, &branch, &targets, p),
        None => String::from_str(alloc, "no branch\n"),
    }
}

// The same of these cuts, weights with the denominator behind them, and branch.
fn weighed(
    alloc: Global,
    lent: &Lent,
    weights: &[u128],
    branch: &Branch,
    targets: &[u128],
    p: &str,
) -> Result<String, AllocError> {
    let [weights @ .., denom] = weights else {
        return String::from_str(alloc, "no denominator\n");
    };
    let weighting = Weighting {
        totals: &lent.totals,
        loads: &lent.loads,
        parts: &lent.parts,
        fixed: &lent.fixed,
        weights,
        denom: *denom,
    };
    let p = p.trim().parse().unwrap_or(0);
    if !serve(&weighting, branch) || !has_room(branch, p) {
        return String::from_str(alloc, "no weighting\n");
    }
    let bound = bound_p(&weighting, branch, p);
    let mut told = format!(in alloc; "bound {bound}\n")?;
    for target in targets {
        tell_target(alloc, &mut told, &weighting, branch, *target, p)?;
    }
    Ok(told)
}

// Whether the branch can have exactly `p` hubs.
fn has_room(branch: &Branch, p: u32) -> bool
    ensures { IsTrue result → HasRoom (Some p) branch.now }
{
    branch.inside().len() <= p as usize && p as usize <= branch.inside().len() + branch.free().len()
}

// Whether each child has room for them too.
fn is_between(branch: &Branch, p: u32) -> bool
    ensures { IsTrue result → IsBetween p branch.now }
{
    branch.inside().len() < p as usize && (p as usize) < branch.inside().len() + branch.free().len()
}

// Whether the bound leaves the branch open at the cutoff.
fn is_open(weighting: &Weighting, branch: &Branch, target: u128, p: u32) -> bool
    requires numbers { AreWeightingNumbers weighting.now }
    requires nodes { IsBranchWithin weighting.now branch.now }
    requires target { target ≤ 10 ^ 30 }
    requires room { HasRoom (Some p) branch.now }
    ensures { IsTrue result → counted_closes p (weighting_of weighting.now) target branch.now ≡ false }
{
    !closes_p(weighting, branch, target, p)
}

fn tell_target(
    alloc: Global,
    told: &mut String,
    weighting: &Weighting,
    branch: &Branch,
    target: u128,
    p: u32,
) -> Result<(), AllocError>
    requires numbers { AreWeightingNumbers weighting.now }
    requires nodes { IsBranchWithin weighting.now branch.now }
    requires room { HasRoom (Some p) branch.now }
{
    if target > MOST_TARGET {
        return writeln!(told, "{target} is no target");
    }
    if !is_open(weighting, branch, target, p) {
        return writeln!(told, "closes {target}");
    }
    if !is_between(branch, p) {
        return writeln!(told, "leaves {target} open");
    }
    let sides = fix_p(alloc, weighting, branch, target, p)?;
    writeln!(told, "leaves {target} open, fixes {sides:?}")
}

/// The hubs that are picked in the line's branch by its point, as many as it names.
pub(crate) fn picked(alloc: Global, text: &str) -> Result<String, AllocError> {
    let (p, rest) = parted(text, ';');
    let (signs, point) = parted(rest, ';');
    let point: Vec<i128> = numbers(alloc, point)?;
    let p = p.trim().parse().unwrap_or(0);
    match branch(alloc, signs.trim())? {
        Some(branch) if p > 0 && has_room(&branch, p) => {
            let set = pick(alloc, &point, &branch, p)?;
            let members = set.members();
            format!(in alloc; "picks {members:?}\n")
        }
        _ => String::from_str(alloc, "no room\n"),
    }
}

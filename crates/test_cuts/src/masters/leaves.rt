//! Bounds of branches under weights on cuts, the cutoffs at which they fathom, and their fixings.

ghost use Rattle.std.specs.Prelude.{ℕ, ◌<◌, length};
ghost use Rattle.leaf_bound.specs.Numbers.{AreWeightingNumbers, IsNodeWithin, IsBranchWithin};

use super::fields::{Lent, branch, cuts_of, numbers, parted};
use super::weighing::serve;
use hub_fixing::fix;
use hub_model::Branch;
use leaf_bound::{Weighting, bound, closes, gain};
use std::alloc::{AllocError, Global};

// The greatest cutoff that there may be.
const MOST_TARGET: u128 = 1_000_000_000_000_000_000_000_000_000_000;

/// The bound of the line's branch, the gain of each node, and for each cutoff whether the bound fathoms it, and else
/// which candidates it fixes.
pub(crate) fn told(alloc: Global, text: &str) -> Result<String, AllocError> {
    let (signs, rest) = parted(text, ';');
    let (targets, rest) = parted(rest, ';');
    let (weights, rest) = parted(rest, ';');
    let targets = numbers(alloc, targets)?;
    let weights = numbers(alloc, weights)?;
    let lent = cuts_of(alloc, rest)?;
    match branch(alloc, signs.trim())? {
        Some(branch) => weighed(alloc, &lent, &weights, &branch, &targets),
        None => String::from_str(alloc, "no branch\n"),
    }
}

// The same of these cuts, weights with the denominator behind them, and branch.
fn weighed(
    alloc: Global,
    lent: &Lent,
    weights: &[u128],
    branch: &Branch,
    targets: &[u128],
) -> Result<String, AllocError> {
    let [weights @ .., denom] = weights else {
        return String::from_str(alloc, "no denominator\n");
    };
    let weighting = Weighting {
        totals: &lent.totals,
        loads: &lent.loads,
        parts: &lent.parts,
        fixed: &lent.fixed,
        weights,
        denom: *denom,
    };
    if !serve(&weighting, branch) {
        return String::from_str(alloc, "no weighting\n");
    }
    let mut told = String::new(alloc);
    tell_bound(alloc, &mut told, &weighting, branch)?;
    for target in targets {
        tell_target(alloc, &mut told, &weighting, branch, *target)?;
    }
    Ok(told)
}

fn tell_bound(
    alloc: Global,
    told: &mut String,
    weighting: &Weighting,
    branch: &Branch,
) -> Result<(), AllocError>
    requires numbers { AreWeightingNumbers weighting.now }
    requires nodes { IsBranchWithin weighting.now branch.now }
    requires each { (k : ℕ) → k < length weighting.now.fixed.now → IsNodeWithin weighting.now k }
{
    let bound = bound(weighting, branch);
    let mut gains = Vec::new(alloc);
    for k in 0..weighting.fixed.len() as u32 {
        gains.push(gain(weighting, k))?;
    }
    writeln!(told, "bound {bound}, gains {gains:?}")
}

fn tell_target(
    alloc: Global,
    told: &mut String,
    weighting: &Weighting,
    branch: &Branch,
    target: u128,
) -> Result<(), AllocError>
    requires numbers { AreWeightingNumbers weighting.now }
    requires nodes { IsBranchWithin weighting.now branch.now }
{
    if target > MOST_TARGET {
        return writeln!(told, "{target} is no target");
    }
    if closes(weighting, branch, target) {
        return writeln!(told, "closes {target}");
    }
    let sides = fix(alloc, weighting, branch, target)?;
    writeln!(told, "leaves {target} open, fixes {sides:?}")
}

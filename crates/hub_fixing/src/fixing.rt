//! Variable fixing: the free candidates that are decided.

ghost use Rattle.std.specs.Prelude.{◌≡◌, ◌^◌, ◌≤◌, false, IfOk};
ghost use Rattle.leaf_bound.specs.Numbers.{AreWeightingNumbers, IsBranchWithin, weighting_of};
ghost use Rattle.hub_fixing.specs.Fixing.{closes_by, fixings};

use crate::sides::side_by;
use hub_model::{Branch, MOST_NODES};
use leaf_bound::{Side, Weighting, bound_by, threshold, write_gains_and_base};
use std::alloc::{AllocError, Global};

// Room for a number of each node.
const ROOM: usize = MOST_NODES as usize;

/// Variable fixing by reduced-cost bounds: the free candidates of the branch that these weights decide, ascending, each
/// with the side to which it is fixed.
///
/// `target` is the cutoff, in 10^-12. The branch itself is not fathomed at it. Otherwise both children of each free
/// candidate would be.
pub fn fix(
    alloc: Global,
    weighting: &Weighting,
    branch: &Branch,
    target: u128,
) -> Result<Vec<(u32, Side)>, AllocError>
    requires numbers { AreWeightingNumbers weighting.now }
    requires nodes { IsBranchWithin weighting.now branch.now }
    requires target { target ≤ 10 ^ 30 }
    requires not_closed { closes_by (weighting_of weighting.now) target branch.now ≡ false }
    ensures { IfOk result (λ sides. sides.items ≡ fixings (weighting_of weighting.now) target branch.now) }
{
    let threshold = threshold(weighting.denom, target);
    let mut room = [0; ROOM];
    let gains = &mut room[..weighting.fixed.len()];
    let base = write_gains_and_base(weighting, gains);
    let whole = bound_by(base, gains, branch);
    let mut sides = Vec::new(alloc);
    for k in branch.free() {
        if let Some(side) = side_by(whole, gains[*k as usize], threshold) {
            sides.push((*k, side))?;
        }
    }
    Ok(sides)
}

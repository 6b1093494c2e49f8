//! Variable fixing for exactly p hubs.

ghost use Rattle.std.specs.Prelude.{◌≡◌, ◌^◌, ◌≤◌, false, IfOk};
ghost use Rattle.leaf_bound.specs.Numbers.{AreWeightingNumbers, IsBranchWithin, weighting_of};
ghost use Rattle.p_hub.specs.Fixing.{counted_closes, counted_fixings, IsBetween};

use crate::bounds::bound_by_rising;
use crate::rising::{ROOM, rising_gains};
use crate::sides::Margins;
use hub_model::Branch;
use leaf_bound::{Side, Weighting, threshold, write_gains_and_base};
use std::alloc::{AllocError, Global};

/// Variable fixing for exactly `p` hubs: the free candidates of the branch that these weights decide, ascending, each
/// with the side to which it is fixed.
///
/// `target` is the cutoff, in 10^-12. The branch itself is not fathomed at it, and each of its children has room for
/// `p` hubs.
pub fn fix_p(
    alloc: Global,
    weighting: &Weighting,
    branch: &Branch,
    target: u128,
    p: u32,
) -> Result<Vec<(u32, Side)>, AllocError>
    requires numbers { AreWeightingNumbers weighting.now }
    requires nodes { IsBranchWithin weighting.now branch.now }
    requires target { target ≤ 10 ^ 30 }
    requires between { IsBetween p branch.now }
    requires not_closed { counted_closes p (weighting_of weighting.now) target branch.now ≡ false }
    ensures { IfOk result (λ sides. sides.items
        ≡ counted_fixings p (weighting_of weighting.now) target branch.now) }
{
    let mut room = [0; ROOM];
    let gains = &mut room[..weighting.fixed.len()];
    let base = write_gains_and_base(weighting, gains);
    let free = branch.free();
    let free_room = rising_gains(gains, free);
    let rising = &free_room[..free.len()];
    let missing = p as usize - branch.inside().len();
    let margins = Margins {
        bound: bound_by_rising(base, gains, rising, branch, p),
        last: rising[missing - 1],
        next: rising[missing],
        threshold: threshold(weighting.denom, target),
    };
    let mut sides = Vec::new(alloc);
    for k in free {
        if let Some(side) = margins.side_of(gains[*k as usize]) {
            sides.push((*k, side))?;
        }
    }
    Ok(sides)
}

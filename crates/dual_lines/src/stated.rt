//! The exact test of one dual of an explicit cut. It has no state, so threads may run it side by side.

ghost use Rattle.std.specs.Prelude.{◌≡◌, ℕ, ◌<◌, ◌≤◌, ◌↔◌, length, slice_index, IsTrue, All, Contains};
ghost use Rattle.hub_spec.specs.Limits.{most_part};
ghost use Rattle.hub_spec.specs.Cuts.{value_at, IsDual};
ghost use Rattle.hub_spec.specs.Ranges.{IsDualInRange};

use crate::amounts::{PricedCommodity, is_covered_by_amounts};
use cut_model::StatedDual;
use hub_model::{Instance, MOST_NODES, is_among};

/// Room for an amount of each node.
const ROOM: usize = MOST_NODES as usize;

/// Tells whether the dual is feasible for the commodity with this part. Only candidates may be listed. No allowed route
/// may cost, times the part and with the values of its hubs added, less than the price.
pub fn is_dual(instance: &Instance, part: u32, commodity: (u32, u32), dual: &StatedDual<'_>) -> bool
    requires part { part ≤ most_part }
    requires from { commodity.0 < instance.now.size }
    requires to { commodity.1 < instance.now.size }
    requires dual { IsDualInRange instance.now.size dual.now }
    ensures { IsTrue result ↔ IsDual instance.now part commodity dual.now }
{
    if !lists_candidates(instance, dual) {
        return false;
    }
    let mut room = [0; ROOM];
    let amounts = &mut room[..instance.size() as usize];
    set_amounts(dual, amounts);
    let line = PricedCommodity {
        from: commodity.0,
        to: commodity.1,
        part,
        price: dual.price(),
    };
    is_covered_by_amounts(instance, line, amounts)
}

/// Tells whether only candidates are listed.
fn lists_candidates(instance: &Instance, dual: &StatedDual<'_>) -> bool
    ensures { IsTrue result ↔ All (λ e. Contains instance.now.candidates e.0) dual.now.u }
{
    let candidates = instance.candidates();
    for at in 0..dual.count() {
        if !is_among(candidates, dual.value(at).0) {
            return false;
        }
    }
    true
}

/// Sets the amount of each node to the value that is listed for it. All are 0 before.
fn set_amounts(dual: &StatedDual<'_>, amounts: &mut [u128])
    requires dual { IsDualInRange (length amounts.old) dual.now }
    requires cleared { (k : ℕ) → slice_index amounts.old k ≡ 0 }
    ensures amounts { (k : ℕ) → slice_index amounts.new k ≡ value_at dual.now.u k }
{
    let mut left = dual.count();
    while left > 0 {
        left -= 1;
        let (k, value) = dual.value(left);
        amounts[k as usize] = value;
    }
}

//! The sums of all origins.

ghost use Rattle.std.specs.Prelude.{◌≡◌, ℕ, ◌+◌, ◌^◌, ◌<◌, ◌≤◌, length, slice_index, All, IfOk};
ghost use Rattle.std.specs.List.{AllZip, range_with_len};
ghost use Rattle.hub_spec.specs.Cuts.{total, load};
ghost use Rattle.hub_spec.specs.Separation.{set_cut};
ghost use Rattle.par_separate.specs.Origins.{IsWhole, AreSumsFrom};

use crate::OriginSums;
use pareto_cuts::Separation;
use std::alloc::{AllocError, Global};

/// The total and the loads of the cut, where the sums of each origin stand in the order of the origins.
pub(crate) fn added(
    alloc: Global,
    separation: &Separation,
    origins: &[OriginSums],
) -> Result<OriginSums, AllocError>
    requires each { AllZip (AreSumsFrom separation.now) (range_with_len 0 separation.now.problem.size) origins.now }
    ensures total { let s = separation.now in IfOk result (λ sums. sums.total ≡ total (set_cut s.problem s.hubs s.order)) }
    ensures long { IfOk result (λ sums. length sums.loads.items ≡ separation.now.problem.size) }
    ensures loads { let s = separation.now in IfOk result (λ sums. (k : ℕ) → k < s.problem.size
        → slice_index sums.loads.items k ≡ load (set_cut s.problem s.hubs s.order) k) }
{
    let mut total = 0;
    let mut loads = vec![in alloc; 0; separation.instance().size() as usize]?;
    for origin in origins {
        total += origin.total;
        add_each(&mut loads, &origin.loads);
    }
    Ok(OriginSums { total, loads })
}

// Adds the loads of the same nodes.
fn add_each(loads: &mut [u128], more: &[u128])
    requires long { length more.now ≡ length loads.old }
    requires fit { (k : ℕ) → k < length loads.old → slice_index loads.old k + slice_index more.now k < 2 ^ 128 }
    ensures long { length loads.new ≡ length loads.old }
    ensures sums { (k : ℕ) → k < length loads.old → slice_index loads.new k ≡ slice_index loads.old k + slice_index more.now k }
{
    for (k, load) in more.iter().enumerate() {
        loads[k] += *load;
    }
}

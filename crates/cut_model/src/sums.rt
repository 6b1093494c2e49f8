//! The sums of a cut, run by run.

ghost use Rattle.std.specs.Prelude.{◌≡◌, ℕ, ◌+◌, ◌*◌, ◌≤◌, length, slice_index, sum_by, All, IfOk};
ghost use Rattle.hub_spec.specs.Cuts.{value_at};
ghost use Rattle.hub_spec.specs.Ranges.{IsAmount, IsDualInRange};
ghost use Rattle.cut_model.specs.Totals.{most_duals, most_sum};
ghost use Rattle.cut_model.specs.Runs.{run_dual, begun, run_total, run_load, IsRunOf};

use crate::StatedDual;
use crate::runs::{Run, lend};
use crate::values::StatedValue;
use std::alloc::{AllocError, Global};

/// The sum of the prices, each as often as its run has commodities.
pub(crate) fn total_of(runs: &[Run]) -> u128
    requires few { begun runs.now (length runs.now) ≤ most_duals }
    requires short { All (λ r. IsAmount r.price) runs.now }
    ensures { result ≡ sum_by run_total runs.now }
{
    let mut sum = 0;
    for run in runs {
        sum += u128::from(run.many) * run.price;
    }
    sum
}

/// The sums of the values, each as often as its run has commodities, by node.
pub(crate) fn loads_of(
    alloc: Global,
    n: u32,
    values: &[StatedValue],
    runs: &[Run],
) -> Result<Vec<u128>, AllocError>
    requires few { begun runs.now (length runs.now) ≤ most_duals }
    requires runs { All (IsRunOf values.now) runs.now }
    requires duals { All (λ r. IsDualInRange n (run_dual values.now r)) runs.now }
    ensures long { IfOk result (λ loads. length loads.items ≡ n) }
    ensures are { IfOk result (λ loads. (k : ℕ) → slice_index loads.items k ≡ sum_by (run_load values.now k) runs.now) }
    ensures most { IfOk result (λ loads. All (λ x. x ≤ most_sum) loads.items) }
{
    let mut loads = vec![in alloc; 0; n as usize]?;
    for run in runs {
        add_values(&mut loads, run.many, &lend(values, run));
    }
    Ok(loads)
}

// Adds the values that the dual lists to the loads of their nodes, for each of so many commodities.
fn add_values(loads: &mut [u128], many: u32, dual: &StatedDual<'_>)
    requires few { many ≤ most_duals }
    requires dual { IsDualInRange (length loads.old) dual.now }
    requires most { All (λ x. x ≤ most_sum) loads.old }
    ensures { (k : ℕ) → slice_index loads.new k ≡ slice_index loads.old k + many * value_at dual.now.u k }
{
    for at in 0..dual.count() {
        let (k, value) = dual.value(at);
        loads[k as usize] += u128::from(many) * value;
    }
}

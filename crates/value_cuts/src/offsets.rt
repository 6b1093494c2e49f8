//! The offset of the first commodity.

ghost use Rattle.std.specs.Prelude.{◌≡◌, ◌≤◌};
ghost use Rattle.hub_spec.specs.Limits.{most_cost};
ghost use Rattle.hub_spec.specs.Problem.{opening_cost};
ghost use Rattle.cut_model.specs.ValueRows.{offset_of};

use hub_model::Instance;

/// The offset of the commodity from `i` to `j`, where that of the first one is given, in 10^-12.
pub(crate) fn offset_of(instance: &Instance, offset: u128, i: u32, j: u32) -> u128
    ensures value { result ≡ offset_of instance.now offset (i, j) }
    ensures limit { result ≤ most_cost }
{
    if i > 0 || j > 0 {
        return 0;
    }
    offset.min(all_costs(instance))
}

/// The sum of the fixed costs of all candidates.
fn all_costs(instance: &Instance) -> u128
    ensures value { result ≡ opening_cost instance.now instance.now.candidates }
    ensures limit { result ≤ most_cost }
{
    let candidates = instance.candidates();
    let mut sum = 0;
    for k in candidates {
        sum += instance.fixed_cost(*k);
    }
    sum
}

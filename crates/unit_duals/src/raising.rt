//! Values raised to what feasibility requires, along a list of destinations.

ghost use Rattle.std.specs.Prelude.{◌≡◌, ◌+◌, ◌-◌, ◌*◌, ◌<◌, ◌≤◌, length, slice_index, All};
ghost use Rattle.unit_duals.specs.Limits.{most_leg};
ghost use Rattle.unit_duals.specs.Raised.{left_beside, IsRaised};

/// Raises the value of each destination of the list to what its slack is above the base. The values of the row stand
/// from `at` on.
pub(crate) fn raise_forth(values: &mut [u64], at: usize, near: &[u8], slack: &[u64], base: u64)
    requires near { All (λ j. j < length slack.now) near.now }
    requires row { at + length slack.now ≤ length values.old }
    ensures { IsRaised at near.now (λ j. slice_index slack.now j - base) (length near.now) values.old values.new }
{
    for nearby in near {
        let j = *nearby as usize;
        let asked = slack[j].saturating_sub(base);
        values[at + j] = values[at + j].max(asked);
    }
}

/// The same, with the last leg of each destination beside the base.
pub(crate) fn raise_home(
    values: &mut [u64],
    at: usize,
    near: &[u8],
    rest: &[u64],
    last: &[u64],
    base: u64,
)
    requires near { All (λ j. j < length rest.now) near.now }
    requires row { at + length rest.now ≤ length values.old }
    requires legs { length last.now ≡ length rest.now }
    requires leg_limit { All (λ d. d ≤ most_leg) last.now }
    requires base_limit { base ≤ 2 * most_leg }
    ensures { IsRaised at near.now (left_beside rest.now last.now base) (length near.now) values.old values.new }
{
    for nearby in near {
        let j = *nearby as usize;
        let asked = rest[j].saturating_sub(base + last[j]);
        values[at + j] = values[at + j].max(asked);
    }
}

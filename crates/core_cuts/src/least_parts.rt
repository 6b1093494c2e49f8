//! The least part that makes ratios whole.

ghost use Rattle.std.specs.Prelude.{◌≡◌, ◌↔◌, ◌<◌, ◌≤◌, ℕ, All, None, IfSome, IsTrue};
ghost use Rattle.hub_spec.specs.Limits.{most_part};
ghost use Rattle.core_cuts.specs.BasicRatios.{IsWholeAt, IsLeastPart, whole_at};

use crate::ratios::Ratio;

/// The greatest part of a cut.
pub(crate) const MOST_PART: u32 = 1000;

/// The least part that makes all of them whole, if it is within its limit.
pub(crate) fn least_part(ratios: &[Ratio]) -> Option<u32>
    requires { All (λ r. 1 ≤ r.over) ratios.now }
    ensures some { IfSome result (λ e. IsLeastPart ratios.now e) }
    ensures limit { IfSome result (λ e. e ≤ most_part) }
    ensures none { result ≡ None → (f : ℕ) → 1 ≤ f → All (IsWholeAt f) ratios.now → most_part < f }
{
    for part in 1..MOST_PART + 1 {
        if are_whole(ratios, part) {
            return Some(part);
        }
    }
    None
}

/// Tells whether the part makes all of them whole.
fn are_whole(ratios: &[Ratio], part: u32) -> bool
    requires { All (λ r. 1 ≤ r.over) ratios.now }
    ensures { IsTrue result ↔ All (IsWholeAt part) ratios.now }
{
    for ratio in ratios {
        if !is_whole(*ratio, part) {
            return false;
        }
    }
    true
}

/// Tells whether the part makes it whole.
fn is_whole(ratio: Ratio, part: u32) -> bool
    requires { 1 ≤ ratio.over }
    ensures { IsTrue result ↔ IsWholeAt part ratio }
{
    part as u128 * ratio.right as u128 % ratio.over as u128 == 0
}

/// What the ratio is, times a part.
pub(crate) fn times_part(ratio: Ratio, part: u32) -> u128
    requires { 1 ≤ ratio.over }
    ensures { result ≡ whole_at part ratio }
{
    part as u128 * ratio.right as u128 / ratio.over as u128
}

//! The least common part of duals.

ghost use Rattle.std.specs.Prelude.{◌≡◌, ◌↔◌, ◌<◌, ◌≤◌, ℕ, All, None, IfSome, IsTrue};
ghost use Rattle.std.specs.Int.{◌∣◌};
ghost use Rattle.hub_spec.specs.Limits.{most_part};
ghost use Rattle.core_cuts.specs.FoundCuts.{parts_of, IsCommonPart, IsLeastCommonPart};

use crate::core_duals::CoreDual;
use crate::least_parts::MOST_PART;

/// The least number that the parts of all of them divide, if it can be the part of a cut.
pub(crate) fn common_part(founds: &[CoreDual]) -> Option<u32>
    requires { All (λ f. 1 ≤ f.part) founds.now }
    ensures some { IfSome result (λ e. IsLeastCommonPart (parts_of founds.now) e) }
    ensures limit { IfSome result (λ e. e ≤ most_part) }
    ensures none { result ≡ None → (e : ℕ) → IsCommonPart (parts_of founds.now) e → most_part < e }
{
    for part in 1..MOST_PART + 1 {
        if divide(founds, part) {
            return Some(part);
        }
    }
    None
}

/// Tells whether the parts of all of them divide the number.
fn divide(founds: &[CoreDual], number: u32) -> bool
    requires { All (λ f. 1 ≤ f.part) founds.now }
    ensures { IsTrue result ↔ All (λ f. f.part ∣ number) founds.now }
{
    for found in founds {
        if !part_divides(found, number) {
            return false;
        }
    }
    true
}

/// Tells whether its part divides the number.
fn part_divides(found: &CoreDual, number: u32) -> bool
    requires { 1 ≤ found.now.part }
    ensures { IsTrue result ↔ (found.now.part ∣ number) }
{
    divides(found.part, number)
}

/// Tells whether the part divides the number.
pub(crate) fn divides(part: u32, number: u32) -> bool
    requires { 1 ≤ part }
    ensures { IsTrue result ↔ (part ∣ number) }
{
    number % part == 0
}

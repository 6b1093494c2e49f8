//! The tables by node and by candidate of a dual's values, written and cleared.

ghost use Rattle.std.specs.Prelude.{◌≡◌, ℕ, ◌<◌, ◌≤◌, ◌≢◌, ◌↔◌, length, map, slice_index, IsTrue, All};
ghost use Rattle.std.specs.List.Sorted.{IsStrictlyIncreasing};
ghost use Rattle.hub_spec.specs.Problem.{Problem};
ghost use Rattle.hub_spec.specs.Cuts.{value_at};
ghost use Rattle.dual_lines.specs.Places.{ArePlaces, IsPlaceOf, IsWithinListed};
ghost use Rattle.dual_lines.specs.Units.{AreUnits};

use crate::units::unit_value;
use hub_model::Instance;

/// Sets the place of each candidate. At the other nodes the number of candidates stands already.
pub(crate) fn set_places(instance: &Instance, places: &mut [u32])
    requires long { length places.old ≡ instance.now.size }
    requires none { (k : ℕ) → k < instance.now.size → slice_index places.old k ≡ length instance.now.candidates }
    ensures { ArePlaces instance.now places.new }
{
    let candidates = instance.candidates();
    for x in 0..candidates.len() {
        places[candidates[x] as usize] = x as u32;
    }
}

/// Puts the value at the node's place, and tells whether it has one.
pub(crate) fn put_unit(places: &[u32], k: u32, value: u64, units: &mut [u64]) -> bool
    requires node { k < length places.now }
    ensures placed { IsTrue result ↔ slice_index places.now k < length units.old }
    ensures here { slice_index places.now k < length units.old
        → slice_index units.new (slice_index places.now k) ≡ value }
    ensures others { (x : ℕ) → x ≢ slice_index places.now k → slice_index units.new x ≡ slice_index units.old x }
{
    let place = places[k as usize] as usize;
    if place < units.len() {
        units[place] = value;
        true
    } else {
        false
    }
}

/// Puts the values that are listed, by unit of this flow, in place of those by unit of another. The inverse is that of
/// the flow by `inverse_of`.
pub(crate) fn put_anew(
    listed: &[(u32, u128)],
    places: &[u32],
    carried: u64,
    inverse: u64,
    units: &mut [u64],
)
    requires { All (λ e. e.0 < length places.now) listed.now }
    ensures { (p : Problem) (before : ℕ) → ArePlaces p places.now → IsStrictlyIncreasing (map (λ e. e.0) listed.now)
        → AreUnits p before (value_at listed.now) units.old
        → AreUnits p carried (value_at listed.now) units.new }
{
    for entry in listed {
        let value = unit_value(entry.1, carried, inverse);
        let _ = put_unit(places, entry.0, value, units);
    }
}

/// Takes back what was written for the nodes that are listed, in time of these alone.
pub(crate) fn clear(listed: &[(u32, u128)], places: &[u32], amounts: &mut [u128], units: &mut [u64])
    requires nodes { All (λ e. e.0 < length places.now) listed.now }
    requires long { length amounts.old ≡ length places.now }
    requires amounts { (k : ℕ) → slice_index amounts.old k ≤ value_at listed.now k }
    ensures amounts { (k : ℕ) → slice_index amounts.new k ≡ 0 }
    ensures units { (node : ℕ → ℕ) → IsPlaceOf (length units.old) node places.now
        → IsWithinListed (length units.old) node listed.now units.old
        → (x : ℕ) → x < length units.old → slice_index units.new x ≡ 0 }
{
    for entry in listed {
        let k = entry.0;
        amounts[k as usize] = 0;
        let _ = put_unit(places, k, 0, units);
    }
}

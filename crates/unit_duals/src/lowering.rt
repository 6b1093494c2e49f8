//! Lengths lowered to the least through a hub.
//!
//! A route whose first part alone is no shorter than each of the lengths lowers none of them. So the nearest hub comes
//! first. Of the others only those follow that are nearer than the greatest length that is left.

ghost use Rattle.std.specs.Prelude.{◌≡◌, ◌+◌, ◌^◌, ◌<◌, ◌≤◌, length, All};
ghost use Rattle.unit_duals.specs.Lowered.{AreLoweredBy, AreLowered, EndAlike, AreRows};

use crate::lanes::greater;
use crate::legs::row;
use crate::stretches::lower_stretch;

/// Lowers each number to the least length from one of the hubs: the base of its stop, and the leg of its row. The hubs
/// are the stops from `start` on.
pub(crate) fn lower_by_hubs(
    items: &mut [u64],
    bases: &[u64],
    table: &[u64],
    start: usize,
    hubs: usize,
)
    requires hubs { start + hubs ≤ length bases.now }
    requires rows { AreRows (length items.old) bases.now table.now }
    requires limit { All (λ d. d < 2 ^ 63) items.old }
    ensures { AreLowered (length items.old) bases.now table.now start hubs items.old items.new }
{
    lower_by_nearest(items, bases, table, start, hubs);
    let most = greatest(items);
    for x in 0..hubs {
        lower_from(items, bases, table, start + x, most);
    }
}

/// Lowers each number to the length from the nearest hub, if there are hubs.
fn lower_by_nearest(items: &mut [u64], bases: &[u64], table: &[u64], start: usize, hubs: usize)
    requires hubs { start + hubs ≤ length bases.now }
    requires rows { AreRows (length items.old) bases.now table.now }
    requires limit { All (λ d. d < 2 ^ 63) items.old }
    ensures alike { EndAlike (length items.old) bases.now table.now start hubs items.old items.new }
    ensures limit { All (λ d. d < 2 ^ 63) items.new }
{
    if hubs > 0 {
        let nearest = start + least_place(&bases[start..start + hubs]);
        lower_by(items, bases, table, nearest);
    }
}

/// Lowers each number to the length from the stop, where none is above `most`.
fn lower_from(items: &mut [u64], bases: &[u64], table: &[u64], m: usize, most: u64)
    requires stop { m < length bases.now }
    requires rows { AreRows (length items.old) bases.now table.now }
    requires limit { All (λ d. d < 2 ^ 63) items.old }
    requires most { All (λ d. d ≤ most) items.old }
    ensures lowered { AreLoweredBy (length items.old) bases.now table.now m items.old items.new }
    ensures most { All (λ d. d ≤ most) items.new }
    ensures limit { All (λ d. d < 2 ^ 63) items.new }
{
    if bases[m] < most {
        lower_by(items, bases, table, m);
    }
}

/// Lowers each number to the length from the stop.
fn lower_by(items: &mut [u64], bases: &[u64], table: &[u64], m: usize)
    requires stop { m < length bases.now }
    requires rows { AreRows (length items.old) bases.now table.now }
    requires limit { All (λ d. d < 2 ^ 63) items.old }
    ensures lowered { AreLoweredBy (length items.old) bases.now table.now m items.old items.new }
    ensures limit { All (λ d. d < 2 ^ 63) items.new }
{
    let legs = row(table, m, items.len());
    lower_stretch(items, 0, bases[m], legs);
}

/// The greatest of the numbers, or 0.
fn greatest(items: &[u64]) -> u64
    requires { All (λ d. d < 2 ^ 63) items.now }
    ensures { All (λ d. d ≤ result) items.now }
{
    let mut most = 0;
    for item in items {
        most = greater(most, *item);
    }
    most
}

/// A place of the least of the numbers. Any place would do: what is lowered by the nearest hub leaves least to do.
fn least_place(items: &[u64]) -> usize
    requires { 1 ≤ length items.now }
    ensures { result < length items.now }
{
    let mut least = 0;
    for at in 1..items.len() {
        if items[at] < items[least] {
            least = at;
        }
    }
    least
}

//! Tables that are computed once for a cut.

ghost use Rattle.std.specs.Prelude.{◌≡◌, ◌*◌, ◌<◌, ◌≤◌, length, slice_index, vec_len, vec_capacity};
ghost use Rattle.unit_duals.specs.Cells.{IsTable};
ghost use Rattle.unit_duals.specs.Lengths.{IsLegRow, stops, trunk_leg, last_leg};
ghost use Rattle.unit_duals.specs.Values.{back_leg};
ghost use Rattle.unit_duals.specs.Raised.{IsColumnSet};

use crate::Legs;
use crate::lowering::lower_by_hubs;

/// Gives the vector this length, within its room.
pub(crate) fn fit<T: Copy + Drop>(items: &mut Vec<T>, len: usize, filler: T)
    requires { len ≤ vec_capacity items.old }
    ensures len { vec_len items.new ≡ len }
    ensures room { vec_capacity items.old ≤ vec_capacity items.new }
{
    // It succeeds, since the room was taken when the vector was made.
    let _ = items.resize(len, filler);
}

/// Makes the vector hold these items, within its room.
pub(crate) fn copy(items: &[u64], into: &mut Vec<u64>)
    requires { length items.now ≤ vec_capacity into.old }
    ensures items { into.new.items ≡ items.now }
    ensures room { vec_capacity into.old ≤ vec_capacity into.new }
{
    into.clear();
    // It succeeds, since the room was taken when the vector was made.
    let _ = into.extend_from_slice(items);
}

/// The trunk legs turned: row k has the legs that lead to the stop k.
pub(crate) fn set_turned(legs: &Legs, turned: &mut [u64])
    requires { length turned.old ≡ stops legs.now * stops legs.now }
    ensures { IsTable (stops legs.now) (λ k m v. v ≡ trunk_leg legs.now m k) turned.new (length turned.new) }
{
    let stops = legs.stops();
    for k in 0..stops {
        for m in 0..stops {
            turned[k * stops + m] = legs.trunk_row(m)[k];
        }
    }
}

/// The least length from each stop to each destination, straight or by a hub. The lengths to one destination are worked
/// out in `column`, over the straight ones.
pub(crate) fn set_back(
    legs: &Legs,
    turned: &[u64],
    straight: &mut [u64],
    column: &mut [u64],
    back: &mut [u64],
)
    requires turned_long { length turned.now ≡ stops legs.now * stops legs.now }
    requires turned { IsTable (stops legs.now) (λ k m v. v ≡ trunk_leg legs.now m k) turned.now (length turned.now) }
    requires straight { length straight.old ≡ stops legs.now }
    requires column { length column.old ≡ stops legs.now }
    requires back { length back.old ≡ stops legs.now * legs.now.size }
    ensures { IsTable legs.now.size (λ k j v. v ≡ back_leg legs.now k j) back.new (length back.new) }
{
    for j in 0..legs.size() {
        set_straight(legs, j, straight);
        lower_column(legs, turned, straight, column, j);
        put_column(column, legs.size(), j, back);
    }
}

/// The lengths from each stop to the destination, straight.
fn set_straight(legs: &Legs, j: usize, straight: &mut [u64])
    requires destination { j < legs.now.size }
    requires long { length straight.old ≡ stops legs.now }
    ensures { IsLegRow (stops legs.now) (λ k. last_leg legs.now k j) straight.new }
{
    let size = legs.size();
    let last = legs.last();
    for k in 0..straight.len() {
        straight[k] = last[k * size + j];
    }
}

/// The least lengths from each stop to the destination, by the straight ones.
fn lower_column(legs: &Legs, turned: &[u64], straight: &[u64], column: &mut [u64], j: usize)
    requires destination { j < legs.now.size }
    requires turned_long { length turned.now ≡ stops legs.now * stops legs.now }
    requires turned { IsTable (stops legs.now) (λ k m v. v ≡ trunk_leg legs.now m k) turned.now (length turned.now) }
    requires straight { IsLegRow (stops legs.now) (λ k. last_leg legs.now k j) straight.now }
    requires column { length column.old ≡ stops legs.now }
    ensures { IsLegRow (stops legs.now) (λ k. back_leg legs.now k j) column.new }
{
    column.copy_from_slice(straight);
    lower_by_hubs(column, straight, turned, legs.count(), legs.hubs());
}

/// Puts the numbers into the column `j` of a table with `size` columns.
fn put_column(column: &[u64], size: usize, j: usize, table: &mut [u64])
    requires column { j < size }
    requires long { length table.old ≡ length column.now * size }
    ensures { IsColumnSet size (length column.now) j (slice_index column.now) table.old table.new }
{
    for k in 0..column.len() {
        table[k * size + j] = column[k];
    }
}

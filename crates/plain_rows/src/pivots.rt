//! All rows after a pivot, and one step of a run.

ghost use Rattle.std.specs.Prelude.{◌≡◌, ◌+◌, ◌-◌, ◌<◌, length, slice_index, OnOk, OnErr, OnSome, IfSome, IsNone};
ghost use Rattle.std.specs.Option.{option_map};
ghost use Rattle.frac_rows.specs.Rows.{entering};
ghost use Rattle.frac_rows.specs.Runs.{step, goes, ends, ended_by};
ghost use Rattle.plain_rows.specs.Flat.{table_of, width_of, base_of, AreRows, IsStored, IsRoomy, IsPivot, IsAfter, AreAfter, IsWideAfter};

use crate::choosing::{least_negative, leaving};
use crate::eliminating::reduce;
use crate::multipliers::RowMultipliers;
use crate::parts::part;
use frac_rows::{Ended, Wide};
use std::mem;

/// A pivot: its row, its place, and what is taken from the other rows.
#[derive(Clone, Copy)]
struct FoldedPivot<'a> {
    row: usize,
    place: usize,
    base: &'a [i64],
}

/// One step of a run: how it ends, if it does. A pivot is made in the spare room, which then holds the rows before it.
pub(crate) fn advance(
    numbers: &mut Vec<i64>,
    spare: &mut Vec<i64>,
    base: &mut [i64],
    outside: &mut [u32],
    basis: &mut [u32],
) -> Option<Ended>
    requires roomy { IsRoomy outside.old numbers.old.items spare.old.items base.old basis.old }
    ensures roomy { IsRoomy outside.new numbers.new.items spare.new.items base.new basis.new }
    ensures goes { IsNone result → step (table_of outside.old numbers.old.items basis.old)
        ≡ goes (table_of outside.new numbers.new.items basis.new) }
    ensures ends { IfSome result (λ e. step (table_of outside.old numbers.old.items basis.old) ≡ ends e) }
    ensures same { OnSome result
        (table_of outside.new numbers.new.items basis.new ≡ table_of outside.old numbers.old.items basis.old) }
{
    let Some(place) = entering(numbers, outside, basis) else {
        return Some(Ended::Best);
    };
    let Some(row) = leaving(numbers, outside, basis, place) else {
        return Some(Ended::Wide);
    };
    let places = outside.len();
    write_base(part(numbers, places + 2, row), place, base);
    let pivot = FoldedPivot { row, place, base };
    if let Err(Wide) = next_rows(numbers, places, basis.len() + 1, &pivot, spare) {
        return Some(Ended::Wide);
    }
    mem::swap(numbers, spare);
    mem::swap(&mut outside[place], &mut basis[row]);
    None
}

/// How a run ends where no further pivot is allowed.
pub(crate) fn ending(numbers: &[i64], outside: &[u32], basis: &[u32]) -> Ended
    requires { IsStored outside.now numbers.now basis.now }
    ensures { result ≡ ended_by (entering (table_of outside.now numbers.now basis.now)) }
{
    match entering(numbers, outside, basis) {
        Some(_) => Ended::Turns,
        None => Ended::Best,
    }
}

// The place of the column that enters.
fn entering(numbers: &[i64], outside: &[u32], basis: &[u32]) -> Option<usize>
    requires { IsStored outside.now numbers.now basis.now }
    ensures place { IfSome result (λ c. c < length outside.now) }
    ensures value { option_map (λ c. slice_index outside.now c) result
        ≡ entering (table_of outside.now numbers.now basis.now) }
{
    least_negative(part(numbers, outside.len() + 2, basis.len()), outside)
}

// Writes what is taken from the other rows: the row's own column moves to the place `c`, and no longer is its own.
fn write_base(row: &[i64], c: usize, base: &mut [i64])
    requires place { c + 2 < length row.now }
    requires room { length base.old ≡ length row.now }
    ensures { base.new ≡ base_of (length row.now - 2) row.now c }
{
    base.copy_from_slice(row);
    base[c] = row[row.len() - 1];
    base[row.len() - 1] = 0;
}

// Writes the rows after the pivot.
fn next_rows(
    numbers: &[i64],
    places: usize,
    height: usize,
    pivot: &FoldedPivot<'_>,
    spare: &mut [i64],
) -> Result<(), Wide>
    requires rows { AreRows (places + 2) height numbers.now }
    requires pivot { IsPivot places height numbers.now pivot.now }
    requires room { length spare.old ≡ length numbers.now }
    ensures room { length spare.new ≡ length numbers.now }
    ensures ok { OnOk result (AreAfter places numbers.now pivot.now.row pivot.now.place height spare.new) }
    ensures err { OnErr result (IsWideAfter places height numbers.now pivot.now.row pivot.now.place) }
{
    let width = places + 2;
    for i in 0..height {
        let out = &mut spare[i * width..i * width + width];
        row_after(numbers, places, height, pivot, i, out)?;
    }
    Ok(())
}

// Writes the row `i` after the pivot. Nothing is taken from a row with 0 at the place, and what it is multiplied by
// is taken out again by the division, so it stays. In the pivot's row its own column and the one that enters change
// places.
fn row_after(
    numbers: &[i64],
    places: usize,
    height: usize,
    pivot: &FoldedPivot<'_>,
    i: usize,
    out: &mut [i64],
) -> Result<(), Wide>
    requires rows { AreRows (places + 2) height numbers.now }
    requires pivot { IsPivot places height numbers.now pivot.now }
    requires room { length out.old ≡ places + 2 }
    requires within { i < height }
    ensures ok { OnOk result (IsAfter places numbers.now pivot.now.row pivot.now.place i out.new) }
    ensures err { OnErr result (IsWideAfter places height numbers.now pivot.now.row pivot.now.place) }
{
    let r = pivot.row;
    let c = pivot.place;
    let row = part(numbers, places + 2, i);
    let number = row[c];
    out.copy_from_slice(row);
    if i == r {
        out[c] = row[places + 1];
        out[places + 1] = number;
        return Ok(());
    }
    if number == 0 {
        return Ok(());
    }
    out[c] = 0;
    let turn = RowMultipliers {
        own: part(numbers, places + 2, r)[c],
        base: number,
    };
    reduce(turn, pivot.base, out)
}

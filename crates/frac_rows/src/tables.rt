//! All rows after a pivot.

ghost use Rattle.std.specs.Prelude.{◌≡◌, ◌+◌, ◌<◌, ◌*◌, length, OnOk, OnErr};
ghost use Rattle.frac_rows.specs.Stored.{AreKept};
ghost use Rattle.frac_rows.specs.Steps.{IsAfter, AreAfter, AreEntering, IsWideAfter};

use crate::Wide;
use crate::columns::Columns;
use crate::divisors::Divisor;
use crate::entering::Pivot;
use crate::follows::{follow_by, follow_reduced};
use crate::parts::part;

/// Writes what is kept of all rows after the pivot, and tells whether all of them were divided by the
/// number that was expected to divide them.
pub(crate) fn next_rows(
    columns: &Columns,
    by: &Option<Divisor>,
    pivot: &Pivot<'_>,
    numbers: &[i64],
    spare: &mut [i64],
) -> Result<bool, Wide>
    requires kept { AreKept columns.now numbers.now }
    requires room { length spare.old ≡ length numbers.now }
    requires row { pivot.now.row < columns.now.height }
    requires entering { AreEntering columns.now numbers.now pivot.now.entering.column pivot.now.entering.numbers.now }
    ensures ok { OnOk result (AreAfter columns.now numbers.now pivot.now.row pivot.now.entering.column columns.now.height spare.new) }
    ensures err { OnErr result (IsWideAfter columns.now numbers.now pivot.now.row pivot.now.entering.column) }
{
    let height = columns.height();
    let width = height + 1;
    let mut divided = true;
    for i in 0..height {
        let out = &mut spare[i * width..i * width + width];
        divided = row_after(columns, by, pivot, i, numbers, out)? && divided;
    }
    Ok(divided)
}

// The row `i` after the pivot, divided by the number that is expected to divide it, else by its greatest common divisor;
// the pivot's row itself stays.
fn row_after(
    columns: &Columns,
    by: &Option<Divisor>,
    pivot: &Pivot<'_>,
    i: usize,
    numbers: &[i64],
    out: &mut [i64],
) -> Result<bool, Wide>
    requires kept { AreKept columns.now numbers.now }
    requires room { length out.old ≡ columns.now.height + 1 }
    requires row { pivot.now.row < columns.now.height }
    requires within { i < columns.now.height }
    requires entering { AreEntering columns.now numbers.now pivot.now.entering.column pivot.now.entering.numbers.now }
    ensures ok { OnOk result (IsAfter columns.now numbers.now pivot.now.row pivot.now.entering.column i out.new) }
    ensures err { OnErr result (IsWideAfter columns.now numbers.now pivot.now.row pivot.now.entering.column) }
{
    let width = columns.height() + 1;
    let r = pivot.row;
    let row = part(numbers, width, i);
    if i == r {
        out.copy_from_slice(row);
        return Ok(true);
    }
    let multipliers = pivot.entering.multipliers(r, i);
    let base = part(numbers, width, r);
    if follow_by(columns, by, multipliers, row, base, out) {
        return Ok(true);
    }
    if follow_reduced(columns, multipliers, row, base, out) {
        return Ok(false);
    }
    Err(Wide)
}

//! One pivot, and one step of a run.

ghost use Rattle.std.specs.Prelude.{◌≡◌, ◌+◌, ◌-◌, ◌^◌, ◌<◌, true, false, length, OnOk, OnErr, OnSome, IfSome, IsNone};
ghost use Rattle.frac_rows.specs.Rows.{after_pivot, is_wide, first_negative};
ghost use Rattle.frac_rows.specs.Runs.{step, goes, ends, ended_by};
ghost use Rattle.frac_rows.specs.Stored.{whole_row, table_of, AreKept, IsStored};
ghost use Rattle.frac_rows.specs.Steps.{AreEntering};

use crate::choices::leaving;
use crate::columns::Columns;
use crate::divisors::Divisor;
use crate::entering::{Entering, Pivot, write_entering};
use crate::parts::part;
use crate::tables::next_rows;
use crate::{Ended, Wide};

/// Makes the pivot, unless the table after it would be wide, and tells what will divide all rows at the next one: the
/// number that was pivoted on, or 0 where some row was divided by another number, so that nothing is known.
pub(crate) fn pivot_on(
    columns: &Columns,
    numbers: &mut [i64],
    spare: &mut [i64],
    basis: &mut [u32],
    pivot: &Pivot<'_>,
    denominator: u64,
) -> Result<u64, Wide>
    requires stored { IsStored columns.now numbers.old basis.old }
    requires room { length spare.old ≡ length numbers.old }
    requires row { pivot.now.row < length basis.old }
    requires column { pivot.now.entering.column + 1 < length columns.now.columns + columns.now.height }
    requires fits { pivot.now.entering.column < 2 ^ 32 }
    requires entering { AreEntering columns.now numbers.old pivot.now.entering.column pivot.now.entering.numbers.now }
    ensures stored { IsStored columns.now numbers.new basis.new }
    ensures ok { OnOk result (table_of columns.now numbers.new basis.new
        ≡ after_pivot (table_of columns.now numbers.old basis.old) pivot.now.row pivot.now.entering.column) }
    ensures narrow { OnOk result (is_wide (table_of columns.now numbers.new basis.new) ≡ false) }
    ensures err { OnErr result
        (is_wide (after_pivot (table_of columns.now numbers.old basis.old) pivot.now.row pivot.now.entering.column) ≡ true) }
    ensures same { OnErr result
        (table_of columns.now numbers.new basis.new ≡ table_of columns.now numbers.old basis.old) }
{
    let by = Divisor::new(denominator);
    let divided = next_rows(columns, &by, pivot, numbers, spare)?;
    let row = pivot.row;
    numbers.copy_from_slice(spare);
    basis[row] = pivot.entering.column as u32;
    Ok(next_divisor(divided, pivot.entering.numbers[row]))
}

// After a pivot by which all rows were divided alike, the number that was pivoted on divides all rows at the next one.
fn next_divisor(divided: bool, number: i64) -> u64 {
    if divided { number.unsigned_abs() } else { 0 }
}

/// One step of a run: how it ends, if it does, and what will divide all rows at the next pivot.
pub(crate) fn advance(
    columns: &Columns,
    numbers: &mut [i64],
    spare: &mut [i64],
    entering: &mut [i64],
    basis: &mut [u32],
    denominator: u64,
) -> (Option<Ended>, u64)
    requires stored { IsStored columns.now numbers.old basis.old }
    requires room { length spare.old ≡ length numbers.old }
    requires entering_room { length entering.old ≡ columns.now.height }
    ensures stored { IsStored columns.now numbers.new basis.new }
    ensures goes { IsNone result.0
        → step (table_of columns.now numbers.old basis.old) ≡ goes (table_of columns.now numbers.new basis.new) }
    ensures ends { IfSome result.0 (λ e. step (table_of columns.now numbers.old basis.old) ≡ ends e) }
    ensures same { OnSome result.0
        (table_of columns.now numbers.new basis.new ≡ table_of columns.now numbers.old basis.old) }
{
    let height = columns.height();
    let objective = part(numbers, height + 1, height - 1);
    let Some(column) = columns.first_negative(objective) else {
        return (Some(Ended::Best), denominator);
    };
    write_entering(columns, numbers, column, entering);
    let entering = Entering {
        column,
        numbers: entering,
    };
    let Some(row) = leaving(columns, numbers, basis, &entering) else {
        return (Some(Ended::Wide), denominator);
    };
    let pivot = Pivot { entering, row };
    match pivot_on(columns, numbers, spare, basis, &pivot, denominator) {
        Ok(next) => (None, next),
        Err(Wide) => (Some(Ended::Wide), denominator),
    }
}

/// How a run ends where no further pivot is allowed.
pub(crate) fn ending(columns: &Columns, numbers: &[i64]) -> Ended
    requires { AreKept columns.now numbers.now }
    ensures { result ≡ ended_by (first_negative (whole_row columns.now numbers.now (columns.now.height - 1))) }
{
    let height = columns.height();
    if columns
        .first_negative(part(numbers, height + 1, height - 1))
        .is_none()
    {
        return Ended::Best;
    }
    Ended::Turns
}

//! The stored part of one row after a pivot, divided by a known divisor or by its greatest common divisor.

ghost use Rattle.std.specs.Prelude.{◌≡◌, ◌+◌, not, length, IsTrue};
ghost use Rattle.frac_rows.specs.Divisors.{reduced};
ghost use Rattle.frac_rows.specs.Rows.{eliminated, AreNarrow};
ghost use Rattle.frac_rows.specs.Stored.{extended};
ghost use Rattle.frac_rows.specs.Steps.{is_wide_whole, IsDivision};

use crate::columns::Columns;
use crate::divisors::Divisor;
use crate::multipliers::Multipliers;
use crate::steps::{divide_by, reduce};

/// Writes what the row becomes divided by the number, and tells that there is one that divides it and that the whole
/// row stays within the limit.
pub(crate) fn follow_by(
    columns: &Columns,
    by: &Option<Divisor>,
    turn: Multipliers,
    row: &[i64],
    base: &[i64],
    out: &mut [i64],
) -> bool
    requires long { length row.now ≡ columns.now.height + 1 }
    requires as_long { length base.now ≡ length row.now }
    requires room { length out.old ≡ length row.now }
    requires narrow { AreNarrow row.now }
    requires narrow_base { AreNarrow base.now }
    ensures divided { IsTrue result → IsDivision (eliminated turn.own row.now turn.base base.now) out.new }
    ensures narrow { IsTrue result → AreNarrow (extended columns.now.columns out.new) }
{
    let Some(by) = by else {
        return false;
    };
    let Some(most) = divide_by(by, turn, row, base, out) else {
        return false;
    };
    if columns.stays_within(most) {
        return true;
    }
    !columns.is_wide(out)
}

/// Writes what the row becomes divided by its greatest common divisor, which is the whole row's too, and tells that the
/// whole row stays within the limit.
pub(crate) fn follow_reduced(
    columns: &Columns,
    turn: Multipliers,
    row: &[i64],
    base: &[i64],
    out: &mut [i64],
) -> bool
    requires long { length row.now ≡ columns.now.height + 1 }
    requires as_long { length base.now ≡ length row.now }
    requires room { length out.old ≡ length row.now }
    requires narrow { AreNarrow row.now }
    requires narrow_base { AreNarrow base.now }
    ensures row { IsTrue result → out.new ≡ reduced (eliminated turn.own row.now turn.base base.now) }
    ensures narrow { IsTrue result → AreNarrow (extended columns.now.columns out.new) }
    ensures within { result ≡ not (is_wide_whole columns.now.columns (eliminated turn.own row.now turn.base base.now)) }
{
    if !reduce(turn, row, base, out) {
        return false;
    }
    !columns.is_wide(out)
}

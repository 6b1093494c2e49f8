//! The basic solution of a table, as ratios.

ghost use Rattle.std.specs.Prelude.{◌≡◌, ◌+◌, ◌<◌, ◌≤◌, length, slice_index, pos, IfOk};
ghost use Rattle.frac_rows.specs.Rows.{number, right_side, row_at};
ghost use Rattle.frac_rows.specs.Theorems.{IsBasic, AreRightsLow};
ghost use Rattle.core_cuts.specs.BasicRatios.{AreRatios, AreNoted};

use plain_rows::PlainRows;
use std::alloc::{AllocError, Global};

/// What a variable is: a number over another one.
#[derive(Clone, Copy)]
pub(crate) struct Ratio {
    pub right: u64,
    pub over: u64,
}

/// What each of the first variables is.
pub(crate) fn ratios_of(
    alloc: Global,
    rows: &PlainRows,
    variables: u32,
) -> Result<Vec<Ratio>, AllocError>
    requires basic { IsBasic rows.now }
    requires rights { AreRightsLow rows.now }
    ensures { IfOk result (λ ratios. AreRatios rows.now variables ratios.items) }
{
    let nothing = Ratio { right: 0, over: 1 };
    let mut ratios = vec![in alloc; nothing; variables as usize]?;
    for row in 0..rows.constraints() {
        note_row(rows, row, &mut ratios);
    }
    Ok(ratios)
}

/// Notes what the row's basic column is, if that is one of the variables.
fn note_row(rows: &PlainRows, row: usize, ratios: &mut [Ratio])
    requires basic { IsBasic rows.now }
    requires rights { AreRightsLow rows.now }
    requires row { row < length rows.now.basis }
    requires noted { AreNoted rows.now row ratios.old }
    ensures long { length ratios.new ≡ length ratios.old }
    ensures noted { AreNoted rows.now (row + 1) ratios.new }
{
    let basic = rows.basic(row) as usize;
    if basic < ratios.len() {
        ratios[basic] = ratio_at(rows, row);
    }
}

/// The right side of the row over its number in its basic column.
fn ratio_at(rows: &PlainRows, row: usize) -> Ratio
    requires basic { IsBasic rows.now }
    requires rights { AreRightsLow rows.now }
    requires row { row < length rows.now.basis }
    ensures some { 1 ≤ result.over }
    ensures over { number (row_at rows.now row) (slice_index rows.now.basis row) ≡ pos result.over }
    ensures right { right_side (row_at rows.now row) ≡ pos result.right }
{
    let _ = rows.constraints();
    let last = rows.columns() - 1;
    let column = rows.basic(row) as usize;
    Ratio {
        right: rows.number(row, last).unsigned_abs(),
        over: rows.number(row, column).unsigned_abs(),
    }
}

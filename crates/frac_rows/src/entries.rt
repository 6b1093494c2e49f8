//! The numbers of a tableau, as the definitions have them.

ghost use Rattle.std.specs.Prelude.{◌≡◌, ◌+◌, ◌<◌, ◌≤◌, length};
ghost use Rattle.frac_rows.specs.Divisors.{divisor_of, reduced};
ghost use Rattle.frac_rows.specs.Rows.{widest, number, AreNarrow};
ghost use Rattle.frac_rows.specs.Stored.{whole_row, AreKept};

use crate::columns::Columns;
use crate::divisors::gcd_64;
use crate::parts::part;
use crate::steps::quotient;

/// The number of the row in the column: what is kept, divided by the greatest common divisor of the whole row, which is
/// that of its kept part.
pub(crate) fn entry(columns: &Columns, numbers: &[i64], row: usize, column: usize) -> i64
    requires kept { AreKept columns.now numbers.now }
    requires row { row < columns.now.height }
    requires column { column < length columns.now.columns + columns.now.height + 1 }
    ensures { result ≡ number (reduced (whole_row columns.now numbers.now row)) column }
{
    let kept = part(numbers, columns.height() + 1, row);
    let number = columns.entry(kept, column);
    quotient(i128::from(number), u128::from(own_divisor(kept))) as i64
}

// The greatest common divisor of the row's numbers.
fn own_divisor(row: &[i64]) -> u64
    requires { AreNarrow row.now }
    ensures value { result ≡ divisor_of row.now }
    ensures size { result ≤ widest }
{
    let mut divisor = 0;
    for k in (0..row.len()).rev() {
        divisor = gcd_64(row[k].unsigned_abs(), divisor);
    }
    divisor
}

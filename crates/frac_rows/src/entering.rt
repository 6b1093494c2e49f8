//! The entering column, with the numbers of all rows in it.

ghost use Rattle.std.specs.Prelude.{◌≡◌, ◌+◌, ◌^◌, ◌<◌, length};
ghost use Rattle.frac_rows.specs.Rows.{number, AreNarrow};
ghost use Rattle.frac_rows.specs.Stored.{AreKept};
ghost use Rattle.frac_rows.specs.Steps.{AreEntering};

use crate::columns::Columns;
use crate::multipliers::Multipliers;
use crate::parts::part;

/// A column that enters, and the number of each row in it.
#[derive(Clone, Copy)]
pub(crate) struct Entering<'a> {
    pub(crate) column: usize,
    pub(crate) numbers: &'a [i64],
}

impl Entering<'_> {
    /// What the row `i` and the base row `r` are multiplied by before the one is taken from the other.
    pub(crate) fn multipliers(&self, r: usize, i: usize) -> Multipliers
        requires narrow { AreNarrow self.now.numbers.now }
        requires base_row { r < length self.now.numbers.now }
        requires row { i < length self.now.numbers.now }
        ensures own { result.own ≡ number self.now.numbers.now r }
        ensures base { result.base ≡ number self.now.numbers.now i }
    {
        Multipliers {
            own: self.numbers[r],
            base: self.numbers[i],
        }
    }
}

/// A pivot: the column that enters, and the row that it is made on.
#[derive(Clone, Copy)]
pub(crate) struct Pivot<'a> {
    pub(crate) entering: Entering<'a>,
    pub(crate) row: usize,
}

/// Writes the numbers of all rows in the column. Each is a sum over a column whose numbers stand far apart, so a pivot
/// works them out but once.
pub(crate) fn write_entering(
    columns: &Columns,
    numbers: &[i64],
    column: usize,
    entering: &mut [i64],
)
    requires kept { AreKept columns.now numbers.now }
    requires within { column < length columns.now.columns + columns.now.height + 1 }
    requires room { length entering.old ≡ columns.now.height }
    ensures entering { AreEntering columns.now numbers.now column entering.new }
    ensures fits { column < 2 ^ 32 }
{
    let height = columns.height();
    for i in 0..height {
        entering[i] = columns.entry(part(numbers, height + 1, i), column);
    }
}

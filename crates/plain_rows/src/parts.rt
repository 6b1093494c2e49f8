//! Rows of equal length, one after another.

ghost use Rattle.std.specs.Prelude.{◌≡◌, ◌+◌, ◌*◌, ◌≤◌, length};
ghost use Rattle.frac_rows.specs.Stored.{piece};

/// The row `i` of rows with `width` numbers each.
pub(crate) fn part(numbers: &[i64], width: usize, i: usize) -> &[i64]
    requires { i * width + width ≤ length numbers.now }
    ensures value { result.now ≡ piece width numbers.now i }
    ensures long { length result.now ≡ width }
{
    &numbers[i * width..i * width + width]
}

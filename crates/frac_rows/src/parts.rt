//! Parts of equal length of one list, one after another.

ghost use Rattle.std.specs.Prelude.{◌≡◌, ◌+◌, ◌*◌, ◌≤◌, length};
ghost use Rattle.frac_rows.specs.Stored.{piece};

/// The part `i` of parts with `width` numbers each.
pub(crate) fn part(flat: &[i64], width: usize, i: usize) -> &[i64]
    requires { i * width + width ≤ length flat.now }
    ensures value { result.now ≡ piece width flat.now i }
    ensures long { length result.now ≡ width }
{
    &flat[i * width..i * width + width]
}

/// The row `k` of the numbers of so many variables, which stand row by row.
#[inline(always)]
pub(crate) fn row_at(numbers: &[i32], variables: usize, k: usize) -> &[i32]
    requires { k * variables + variables ≤ length numbers.now }
    ensures value { result.now ≡ piece variables numbers.now k }
    ensures long { length result.now ≡ variables }
{
    &numbers[k * variables..k * variables + variables]
}

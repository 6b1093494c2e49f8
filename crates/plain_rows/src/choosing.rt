//! The entering column and the leaving row.

ghost use Rattle.std.specs.Prelude.{◌≡◌, ◌+◌, ◌-◌, ◌<◌, ◌≤◌, ◌<ℤ◌, pos, length, slice_index, unsigned_abs, IfSome};
ghost use Rattle.frac_rows.specs.Rows.{widest, number, is_sooner, leaves_before, sooner, leaving, AreNarrow};
ghost use Rattle.frac_rows.specs.Stored.{piece};
ghost use Rattle.plain_rows.specs.Flat.{table_of, width_of, AreRows, IsStored};
ghost use Rattle.plain_rows.specs.Choices.{IsLeastBelow};

use crate::multipliers::product;
use crate::parts::part;

/// What decides whether a row leaves before another: its right side, its number in the entering column, and its basic column.
#[derive(Clone, Copy)]
struct LeavingCandidate {
    right: i64,
    number: i64,
    basic: u32,
    ghost right_limit: { unsigned_abs right ≤ widest },
    ghost number_limit: { unsigned_abs number ≤ widest },
}

/// The place of the least column with a number below 0 in the row.
pub(crate) fn least_negative(row: &[i64], outside: &[u32]) -> Option<usize>
    requires { length row.now ≡ length outside.now + 2 }
    ensures { IsLeastBelow outside.now row.now (length outside.now) result }
{
    let mut best = None;
    for c in 0..outside.len() {
        best = lesser(row, outside, c, best);
    }
    best
}

// The one of the best place so far and the place `c` whose column is less, where both have a number below 0.
fn lesser(row: &[i64], outside: &[u32], c: usize, best: Option<usize>) -> Option<usize>
    requires long { length row.now ≡ length outside.now + 2 }
    requires place { c < length outside.now }
    requires best { IsLeastBelow outside.now row.now c best }
    ensures { IsLeastBelow outside.now row.now (c + 1) result }
{
    if row[c] >= 0 {
        return best;
    }
    let Some(b) = best else {
        return Some(c);
    };
    if outside[b] <= outside[c] {
        return best;
    }
    Some(c)
}

/// The constraint row that leaves where the column at this place enters.
pub(crate) fn leaving(
    numbers: &[i64],
    outside: &[u32],
    basis: &[u32],
    place: usize,
) -> Option<usize>
    requires stored { IsStored outside.now numbers.now basis.now }
    requires place { place < length outside.now }
    ensures value { result ≡ leaving (table_of outside.now numbers.now basis.now) (slice_index outside.now place) }
    ensures row { IfSome result (λ r. r < length basis.now) }
    ensures above { IfSome result (λ r. pos 0 <ℤ number (piece (width_of outside.now) numbers.now r) place) }
{
    let mut best = None;
    for i in 0..basis.len() {
        best = sooner(numbers, outside, basis, place, i, best);
    }
    best
}

// The one of the best row so far and the row `i` that leaves first.
fn sooner(
    numbers: &[i64],
    outside: &[u32],
    basis: &[u32],
    place: usize,
    i: usize,
    best: Option<usize>,
) -> Option<usize>
    requires stored { IsStored outside.now numbers.now basis.now }
    requires place { place < length outside.now }
    requires row { i < length basis.now }
    requires best { IfSome best (λ j. j < length basis.now) }
    requires above { IfSome best (λ j. pos 0 <ℤ number (piece (width_of outside.now) numbers.now j) place) }
    ensures value { result ≡ sooner (table_of outside.now numbers.now basis.now) (slice_index outside.now place) i best }
    ensures row { IfSome result (λ j. j < length basis.now) }
    ensures above { IfSome result (λ j. pos 0 <ℤ number (piece (width_of outside.now) numbers.now j) place) }
{
    let may_leave = part(numbers, outside.len() + 2, i)[place] > 0;
    if !may_leave {
        return best;
    }
    let Some(j) = best else {
        return Some(i);
    };
    if leaves_before(numbers, outside, basis, place, i, j) {
        return Some(i);
    }
    best
}

// Whether the row `i` leaves before the row `j`.
fn leaves_before(
    numbers: &[i64],
    outside: &[u32],
    basis: &[u32],
    place: usize,
    i: usize,
    j: usize,
) -> bool
    requires stored { IsStored outside.now numbers.now basis.now }
    requires place { place < length outside.now }
    requires row { i < length basis.now }
    requires other_row { j < length basis.now }
    ensures { result ≡ leaves_before (table_of outside.now numbers.now basis.now) (slice_index outside.now place) i j }
{
    let width = outside.len() + 2;
    let one = candidate_of(part(numbers, width, i), place, basis[i]);
    let other = candidate_of(part(numbers, width, j), place, basis[j]);
    one.is_sooner(other)
}

impl LeavingCandidate {
    // Whether it leaves before the other, by their ratios and then by their basic columns.
    fn is_sooner(self, other: LeavingCandidate) -> bool
        ensures { result ≡ is_sooner self.right self.number self.basic other.right other.number other.basic }
    {
        let ratio = product(self.right, other.number);
        let other_ratio = product(other.right, self.number);
        ratio < other_ratio || !(other_ratio < ratio) && self.basic < other.basic
    }
}

fn candidate_of(row: &[i64], place: usize, basic: u32) -> LeavingCandidate
    requires narrow { AreNarrow row.now }
    requires place { place + 2 < length row.now }
    ensures right { result.right ≡ number row.now (length row.now - 2) }
    ensures number { result.number ≡ number row.now place }
    ensures basic { result.basic ≡ basic }
{
    LeavingCandidate {
        right: row[row.len() - 2],
        number: row[place],
        basic,
    }
}

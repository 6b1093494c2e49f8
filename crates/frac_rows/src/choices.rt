//! The leaving row: the ratio test of the simplex.

ghost use Rattle.std.specs.Prelude.{◌≡◌, ◌+◌, ◌*ℤ◌, ◌<◌, ◌≤◌, ◌&&◌, ◌||◌, not, nat_lt, int_lt, length, slice_index, unsigned_abs, IfSome};
ghost use Rattle.std.specs.Option.{option_map};
ghost use Rattle.frac_rows.specs.Rows.{widest, is_sooner, leaving, sooner};
ghost use Rattle.frac_rows.specs.Stored.{table_of, AreKept};
ghost use Rattle.frac_rows.specs.Steps.{AreEntering, IsCandidate};

use crate::columns::Columns;
use crate::entering::Entering;
use crate::multipliers::product;
use crate::parts::part;

/// A row that may leave: its right side, and its number in the entering column.
#[derive(Clone, Copy)]
struct Candidate {
    row: usize,
    right: i64,
    number: i64,
}

/// The constraint row that leaves where the column enters.
pub(crate) fn leaving(
    columns: &Columns,
    numbers: &[i64],
    basis: &[u32],
    entering: &Entering<'_>,
) -> Option<usize>
    requires kept { AreKept columns.now numbers.now }
    requires one_each { length basis.now + 1 ≡ columns.now.height }
    requires entering { AreEntering columns.now numbers.now entering.now.column entering.now.numbers.now }
    ensures value { result ≡ leaving (table_of columns.now numbers.now basis.now) entering.now.column }
    ensures row { IfSome result (λ r. r < length basis.now) }
{
    let mut best = None;
    for i in 0..basis.len() {
        best = sooner(columns, numbers, basis, entering, i, best);
    }
    let candidate = best?;
    Some(candidate.row)
}

// The one of the best row so far and the row `i` that leaves first.
fn sooner(
    columns: &Columns,
    numbers: &[i64],
    basis: &[u32],
    entering: &Entering<'_>,
    i: usize,
    best: Option<Candidate>,
) -> Option<Candidate>
    requires kept { AreKept columns.now numbers.now }
    requires one_each { length basis.now + 1 ≡ columns.now.height }
    requires entering { AreEntering columns.now numbers.now entering.now.column entering.now.numbers.now }
    requires row { i < length basis.now }
    requires best { IfSome best (λ b. IsCandidate columns.now numbers.now entering.now.column b.row b.right b.number) }
    ensures value { option_map (λ b. b.row) result
        ≡ sooner (table_of columns.now numbers.now basis.now) entering.now.column i (option_map (λ b. b.row) best) }
    ensures candidate { IfSome result
        (λ b. IsCandidate columns.now numbers.now entering.now.column b.row b.right b.number) }
{
    let candidate = candidate_at(columns, numbers, entering, i);
    if !(candidate.number > 0) {
        return best;
    }
    let Some(other) = best else {
        return Some(candidate);
    };
    if leaves_before(basis, candidate, other) {
        return Some(candidate);
    }
    Some(other)
}

// The row as one that may leave.
fn candidate_at(columns: &Columns, numbers: &[i64], entering: &Entering<'_>, i: usize) -> Candidate
    requires kept { AreKept columns.now numbers.now }
    requires entering { AreEntering columns.now numbers.now entering.now.column entering.now.numbers.now }
    requires row { i + 1 < columns.now.height }
    ensures row { result.row ≡ i }
    ensures candidate { IsCandidate columns.now numbers.now entering.now.column i result.right result.number }
{
    let height = columns.height();
    let row = part(numbers, height + 1, i);
    Candidate {
        row: i,
        right: columns.entry(row, columns.variables() + height),
        number: entering.numbers[i],
    }
}

// Whether one row leaves before the other, by their ratios and then by their basic columns.
fn leaves_before(basis: &[u32], one: Candidate, other: Candidate) -> bool
    requires row { one.row < length basis.now }
    requires other_row { other.row < length basis.now }
    requires right { unsigned_abs one.right ≤ widest }
    requires number { unsigned_abs one.number ≤ widest }
    requires other_right { unsigned_abs other.right ≤ widest }
    requires other_number { unsigned_abs other.number ≤ widest }
    ensures { result
        ≡ is_sooner one.right one.number (slice_index basis.now one.row)
        other.right other.number (slice_index basis.now other.row) }
{
    let ratio = product(one.right, other.number);
    let other_ratio = product(other.right, one.number);
    ratio < other_ratio || !(other_ratio < ratio) && basis[one.row] < basis[other.row]
}

//! Whether a row has a number above the limit in a column of a variable.

ghost use Rattle.std.specs.Prelude.{◌≡◌, ◌+◌, ◌-◌, ◌*◌, ◌<◌, ◌≤◌, length, map, unsigned_abs, nat_lt, IfSome, IsTrue, IsFalse};
ghost use Rattle.frac_rows.specs.Rows.{widest, is_wide_row, AreNarrow};
ghost use Rattle.frac_rows.specs.Stored.{columns_of, dot, AreColumns};
ghost use Rattle.frac_rows.specs.RoughRows.{IsMargin, IsKeptRow, IsRoughOf, number_of, NoneWide, SomeWide, AreTellingSizes};

use crate::limits::WIDEST;
use crate::products::{reach, sum_128};
use crate::rough_rows::{
    LANES, MOST_ROWS, RoughRow, full_sums, greatest_size, rough_sums, roughen,
};
use crate::whole_rows::WholeRow;

/// Whether a number of the whole row before those that are kept is too great.
///
/// Where even the greatest sizes stay within the limit together, no column is looked at.
pub(crate) fn is_wide_of(
    numbers: &[i32],
    tops: &[u64],
    margin: Option<i32>,
    variables: usize,
    row: &[i64],
) -> bool
    requires columns { AreColumns (length row.now - 1) variables numbers.now tops.now }
    requires margin { IfSome margin (IsMargin (length row.now - 1) tops.now) }
    requires narrow { AreNarrow row.now }
    ensures { result ≡ is_wide_row (map (dot row.now) (columns_of (length row.now - 1) variables numbers.now)) }
{
    if reach(row, tops) <= u128::from(WIDEST) {
        return false;
    }
    let whole = WholeRow {
        numbers,
        tops,
        variables,
        row,
    };
    some_wide(&whole, margin)
}

// The same by looking at the columns.
fn some_wide(whole: &WholeRow<'_>, margin: Option<i32>) -> bool
    requires whole { IsKeptRow whole.now }
    requires margin { IfSome margin (IsMargin (length whole.now.row.now - 1) whole.now.tops.now) }
    ensures none { let w = whole.now in IsFalse result → NoneWide w.variables w.numbers.now w.row.now 0 w.variables }
    ensures some { let w = whole.now in IsTrue result → SomeWide w.variables w.numbers.now w.row.now }
{
    let Some(margin) = margin else {
        return wide_between(whole);
    };
    let mut room = [0i32; MOST_ROWS];
    let numbers = &mut room[..whole.tops.len()];
    let Some(step) = roughen(whole.row, whole.tops, numbers) else {
        return wide_between(whole);
    };
    let rough = RoughRow {
        numbers,
        step,
        margin,
    };
    wide_by_blocks(whole, &rough)
}

// The same by looking at one after the other.
fn wide_between(whole: &WholeRow<'_>) -> bool
    requires { IsKeptRow whole.now }
    ensures none { let w = whole.now in IsFalse result → NoneWide w.variables w.numbers.now w.row.now 0 w.variables }
    ensures some { let w = whole.now in IsTrue result → SomeWide w.variables w.numbers.now w.row.now }
{
    for j in 0..whole.variables {
        if is_wide_at(whole, j) {
            return true;
        }
    }
    false
}

// Whether the variable's number is too great.
fn is_wide_at(whole: &WholeRow<'_>, j: usize) -> bool
    requires whole { IsKeptRow whole.now }
    requires within { j < whole.now.variables }
    ensures { let w = whole.now in result ≡ nat_lt widest (unsigned_abs (number_of w.variables w.numbers.now w.row.now j)) }
{
    sum_128(whole.numbers, whole.variables, whole.row, j).unsigned_abs() > u128::from(WIDEST)
}

// The same by the rough row, block by block.
fn wide_by_blocks(whole: &WholeRow<'_>, rough: &RoughRow<'_>) -> bool
    requires whole { IsKeptRow whole.now }
    requires rough { IsRoughOf whole.now rough.now }
    ensures none { let w = whole.now in IsFalse result → NoneWide w.variables w.numbers.now w.row.now 0 w.variables }
    ensures some { let w = whole.now in IsTrue result → SomeWide w.variables w.numbers.now w.row.now }
{
    let most = WIDEST / rough.step;
    for block in 0..whole.variables.div_ceil(LANES) {
        let first = block * LANES;
        let last = whole.variables.min(first + LANES);
        if wide_in_block(whole, rough, most, first, last) {
            return true;
        }
    }
    false
}

// Whether one of these variables has a number that is too great, where so many steps are not.
fn wide_in_block(
    whole: &WholeRow<'_>,
    rough: &RoughRow<'_>,
    most: u64,
    first: usize,
    last: usize,
) -> bool
    requires whole { IsKeptRow whole.now }
    requires rough { IsRoughOf whole.now rough.now }
    requires most { rough.now.step * most ≤ widest }
    requires first { first ≤ last }
    requires few { last ≤ first + 32 }
    requires last { last ≤ whole.now.variables }
    ensures none { let w = whole.now in IsFalse result → NoneWide w.variables w.numbers.now w.row.now first last }
    ensures some { let w = whole.now in IsTrue result → SomeWide w.variables w.numbers.now w.row.now }
{
    let margin = rough.margin.unsigned_abs();
    if last - first == LANES {
        let sums = full_sums(whole.numbers, whole.variables, first, rough.numbers);
        return wide_told(whole, margin, most, first, last, &sums);
    }
    let mut room = [0i32; LANES];
    let sums = &mut room[..last - first];
    rough_sums(whole.numbers, whole.variables, first, rough.numbers, sums);
    wide_told(whole, margin, most, first, last, sums)
}

// The same, where sums tell of most that their number is not too great.
fn wide_told(
    whole: &WholeRow<'_>,
    margin: u32,
    most: u64,
    first: usize,
    last: usize,
    sums: &[i32],
) -> bool
    requires whole { IsKeptRow whole.now }
    requires one_each { first + length sums.now ≡ last }
    requires last { last ≤ whole.now.variables }
    requires telling { let w = whole.now in AreTellingSizes w.variables w.numbers.now w.row.now margin most first sums.now }
    ensures none { let w = whole.now in IsFalse result → NoneWide w.variables w.numbers.now w.row.now first last }
    ensures some { let w = whole.now in IsTrue result → SomeWide w.variables w.numbers.now w.row.now }
{
    if is_told(greatest_size(sums), margin, most) {
        return false;
    }
    for j in first..last {
        if is_wide_by(whole, j, margin, most, sums[j - first]) {
            return true;
        }
    }
    false
}

// Whether a sum of this size tells that its number is not too great.
fn is_told(size: u32, margin: u32, most: u64) -> bool
    ensures { IsTrue result → size + margin ≤ most }
{
    u64::from(size) + u64::from(margin) <= most
}

// Whether the variable's number is too great, which a sum may rule out.
fn is_wide_by(whole: &WholeRow<'_>, j: usize, margin: u32, most: u64, sum: i32) -> bool
    requires whole { IsKeptRow whole.now }
    requires within { j < whole.now.variables }
    requires telling { let w = whole.now in
        unsigned_abs sum + margin ≤ most → unsigned_abs (number_of w.variables w.numbers.now w.row.now j) ≤ widest }
    ensures { let w = whole.now in result ≡ nat_lt widest (unsigned_abs (number_of w.variables w.numbers.now w.row.now j)) }
{
    if is_told(sum.unsigned_abs(), margin, most) {
        return false;
    }
    is_wide_at(whole, j)
}

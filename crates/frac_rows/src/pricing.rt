//! Pricing: the first column before v with a negative number in a row.

ghost use Rattle.std.specs.Prelude.{◌≡◌, ◌+◌, ◌-◌, ◌<◌, ◌≤◌, ◌≤ℤ◌, false, length, IfSome, IsNone};
ghost use Rattle.frac_rows.specs.Rows.{first_negative, AreNarrow};
ghost use Rattle.frac_rows.specs.Stored.{columns_of, extended, AreColumns};
ghost use Rattle.frac_rows.specs.RoughRows.{IsMargin, IsWholeRow, IsRoughOf, is_below, NoneBelow, IsFirstBelow, AreTelling};

use crate::columns::entry_of;
use crate::rough_rows::{LANES, MOST_ROWS, RoughRow, full_sums, least, rough_sums, roughen};
use crate::whole_rows::WholeRow;

/// The least column before v with a number below 0 in the whole row.
pub(crate) fn first_negative_of(
    numbers: &[i32],
    tops: &[u64],
    margin: Option<i32>,
    variables: usize,
    row: &[i64],
) -> Option<usize>
    requires some { 2 ≤ length row.now }
    requires columns { AreColumns (length row.now - 1) variables numbers.now tops.now }
    requires margin { IfSome margin (IsMargin (length row.now - 1) tops.now) }
    requires narrow { AreNarrow (extended (columns_of (length row.now - 1) variables numbers.now) row.now) }
    ensures { result ≡ first_negative (extended (columns_of (length row.now - 1) variables numbers.now) row.now) }
{
    let whole = WholeRow {
        numbers,
        tops,
        variables,
        row,
    };
    if let Some(j) = first_below(&whole, margin) {
        return Some(j);
    }
    for j in variables..variables + row.len() - 2 {
        if entry_of(numbers, variables, row, j) < 0 {
            return Some(j);
        }
    }
    None
}

// The first variable with a number below 0.
fn first_below(whole: &WholeRow<'_>, margin: Option<i32>) -> Option<usize>
    requires whole { IsWholeRow whole.now }
    requires margin { IfSome margin (IsMargin (length whole.now.row.now - 1) whole.now.tops.now) }
    ensures none { let w = whole.now in IsNone result → NoneBelow w.variables w.numbers.now w.row.now 0 w.variables }
    ensures some { let w = whole.now in IfSome result (IsFirstBelow w.variables w.numbers.now w.row.now 0 w.variables) }
{
    let Some(margin) = margin else {
        return first_between(whole);
    };
    let mut room = [0i32; MOST_ROWS];
    let numbers = &mut room[..whole.tops.len()];
    let Some(step) = roughen(whole.row, whole.tops, numbers) else {
        return first_between(whole);
    };
    let rough = RoughRow {
        numbers,
        step,
        margin,
    };
    first_by_blocks(whole, &rough)
}

// The same by looking at one after the other.
fn first_between(whole: &WholeRow<'_>) -> Option<usize>
    requires { IsWholeRow whole.now }
    ensures none { let w = whole.now in IsNone result → NoneBelow w.variables w.numbers.now w.row.now 0 w.variables }
    ensures some { let w = whole.now in IfSome result (IsFirstBelow w.variables w.numbers.now w.row.now 0 w.variables) }
{
    for j in 0..whole.variables {
        if is_below(whole, j) {
            return Some(j);
        }
    }
    None
}

// Whether the variable's number is below 0.
fn is_below(whole: &WholeRow<'_>, j: usize) -> bool
    requires whole { IsWholeRow whole.now }
    requires within { j < whole.now.variables }
    ensures { result ≡ is_below whole.now.variables whole.now.numbers.now whole.now.row.now j }
{
    entry_of(whole.numbers, whole.variables, whole.row, j) < 0
}

// The same by the rough row, block by block.
fn first_by_blocks(whole: &WholeRow<'_>, rough: &RoughRow<'_>) -> Option<usize>
    requires whole { IsWholeRow whole.now }
    requires rough { IsRoughOf whole.now rough.now }
    ensures none { let w = whole.now in IsNone result → NoneBelow w.variables w.numbers.now w.row.now 0 w.variables }
    ensures some { let w = whole.now in IfSome result (IsFirstBelow w.variables w.numbers.now w.row.now 0 w.variables) }
{
    for block in 0..whole.variables.div_ceil(LANES) {
        let first = block * LANES;
        let last = whole.variables.min(first + LANES);
        if let Some(j) = first_in_block(whole, rough, first, last) {
            return Some(j);
        }
    }
    None
}

// The first of these variables with a number below 0.
fn first_in_block(
    whole: &WholeRow<'_>,
    rough: &RoughRow<'_>,
    first: usize,
    last: usize,
) -> Option<usize>
    requires whole { IsWholeRow whole.now }
    requires rough { IsRoughOf whole.now rough.now }
    requires first { first ≤ last }
    requires few { last ≤ first + 32 }
    requires last { last ≤ whole.now.variables }
    ensures none { let w = whole.now in IsNone result → NoneBelow w.variables w.numbers.now w.row.now first last }
    ensures some { let w = whole.now in IfSome result (IsFirstBelow w.variables w.numbers.now w.row.now first last) }
{
    if last - first == LANES {
        let sums = full_sums(whole.numbers, whole.variables, first, rough.numbers);
        return first_told(whole, rough.margin, first, last, &sums);
    }
    let mut room = [0i32; LANES];
    let sums = &mut room[..last - first];
    rough_sums(whole.numbers, whole.variables, first, rough.numbers, sums);
    first_told(whole, rough.margin, first, last, sums)
}

// The same, where sums tell of most that their number is not below 0.
fn first_told(
    whole: &WholeRow<'_>,
    margin: i32,
    first: usize,
    last: usize,
    sums: &[i32],
) -> Option<usize>
    requires whole { IsWholeRow whole.now }
    requires one_each { first + length sums.now ≡ last }
    requires last { last ≤ whole.now.variables }
    requires telling { let w = whole.now in AreTelling w.variables w.numbers.now w.row.now margin first sums.now }
    ensures none { let w = whole.now in IsNone result → NoneBelow w.variables w.numbers.now w.row.now first last }
    ensures some { let w = whole.now in IfSome result (IsFirstBelow w.variables w.numbers.now w.row.now first last) }
{
    if !(least(sums) < margin) {
        return None;
    }
    for j in first..last {
        if is_below_by(whole, j, margin, sums[j - first]) {
            return Some(j);
        }
    }
    None
}

// Whether the variable's number is below 0, which a sum that is at least the margin rules out.
fn is_below_by(whole: &WholeRow<'_>, j: usize, margin: i32, sum: i32) -> bool
    requires whole { IsWholeRow whole.now }
    requires within { j < whole.now.variables }
    requires telling { let w = whole.now in margin ≤ℤ sum → is_below w.variables w.numbers.now w.row.now j ≡ false }
    ensures { result ≡ is_below whole.now.variables whole.now.numbers.now whole.now.row.now j }
{
    if sum < margin {
        return is_below(whole, j);
    }
    false
}

//! Rough rows: approximate rows in 32 bits, whose sums of products with the columns bound those of the exact rows.

ghost use Rattle.std.specs.Prelude.{◌≡◌, ℕ, ◌+◌, ◌-◌, ◌*◌, ◌^◌, ◌<◌, ◌≤◌, ◌+ℤ◌, ◌-ℤ◌, ◌*ℤ◌, ◌≤ℤ◌, pos, length, take, drop, min, sum, unsigned_abs, FitsSigned, IfSome};
ghost use Rattle.std.specs.Int.{w32, int_wrap};
ghost use Rattle.frac_rows.specs.Rows.{widest, number};
ghost use Rattle.frac_rows.specs.Stored.{dot, reach, piece, standing};
ghost use Rattle.frac_rows.specs.RoughRows.{IsMargin, IsRough};

use crate::limits::WIDEST;
use crate::multipliers::product;
use crate::parts::row_at;
use crate::products::{reach, size_product};

/// The most rows of columns that have rough sums.
pub(crate) const MOST_ROWS: usize = 256;

/// How many columns are summed side by side.
pub(crate) const LANES: usize = 32;

/// A rough row, the step that goes into the row about so often, and how far, in steps, its sums are at most off.
#[derive(Clone, Copy)]
pub(crate) struct RoughRow<'a> {
    pub(crate) numbers: &'a [i32],
    pub(crate) step: u64,
    pub(crate) margin: i32,
}

// The most that the tops may be together.
const MOST_MARGIN: u64 = 1 << 30;

/// How far, in steps, a rough sum is at most off: the tops together. There is none where there are too many rows or the
/// tops are too great.
pub(crate) fn margin_of(tops: &[u64]) -> Option<i32>
    requires { sum tops.now ≤ 2 ^ 64 }
    ensures { IfSome result (IsMargin (length tops.now) tops.now) }
{
    let margin = sum_of(tops);
    if tops.len() > MOST_ROWS || margin > MOST_MARGIN {
        return None;
    }
    Some(margin as i32)
}

fn sum_of(tops: &[u64]) -> u64
    requires { sum tops.now ≤ 2 ^ 64 }
    ensures { result ≡ min (2 ^ 64 - 1) (sum tops.now) }
{
    let mut total = 0u64;
    for top in tops {
        total = total.saturating_add(*top);
    }
    total
}

/// Writes for each number of the row about how often some step goes into it, and returns the step. Returns `None` if
/// one of them might not fit 32 bits, or a sum of products of them with a column.
pub(crate) fn roughen(row: &[i64], tops: &[u64], rough: &mut [i32]) -> Option<u64>
    requires long { length tops.now ≤ length row.now }
    requires room { length rough.old ≡ length tops.now }
    ensures rough { IfSome result (λ d. IsRough d row.now rough.new) }
    ensures reach { IfSome result (λ _. reach rough.new tops.now < 2 ^ 31) }
    ensures step { IfSome result (λ d. 1 ≤ d) }
{
    let shift = shift_for(reach(row, tops));
    if shift > 61 {
        return None;
    }
    let step = 1u64 << shift;
    if step < 1 || step > WIDEST {
        return None;
    }
    for k in 0..rough.len() {
        let Some(number) = rough_number(row[k], shift, step) else {
            return None;
        };
        rough[k] = number;
    }
    if reach_32(rough, tops) >= 1 << 31 {
        return None;
    }
    Some(step)
}

// How often a row of this reach is halved.
fn shift_for(reach: u128) -> u32 {
    98u32.saturating_sub(reach.leading_zeros())
}

// About how often the step goes into the number, unless that does not fit.
fn rough_number(x: i64, shift: u32, step: u64) -> Option<i32>
    requires shift { shift < 64 }
    requires step { step ≤ widest }
    ensures { IfSome result (λ r. unsigned_abs (x -ℤ pos step *ℤ r) ≤ step) }
{
    let number = i32::try_from(x >> shift).ok()?;
    let rest = i128::from(x) - product(step as i64, i64::from(number));
    if rest.unsigned_abs() > u128::from(step) {
        return None;
    }
    Some(number)
}

// What the sum of the products of the rough row and a column is at most in size.
fn reach_32(rough: &[i32], tops: &[u64]) -> u128
    requires { length tops.now ≤ length rough.now }
    ensures { result ≡ min (2 ^ 128 - 1) (reach rough.now tops.now) }
{
    let mut sum = 0u128;
    for k in 0..tops.len() {
        sum = sum.saturating_add(size_product(i64::from(rough[k]), tops[k]));
    }
    sum
}

/// Writes the sums of the products of the rough row with the columns from `first` on, as far as they fit.
pub(crate) fn rough_sums(
    numbers: &[i32],
    variables: usize,
    first: usize,
    rough: &[i32],
    sums: &mut [i32],
)
    requires long { length numbers.now ≡ length rough.now * variables }
    requires within { first + length sums.old ≤ variables }
    ensures { (l : ℕ) → l < length sums.new → number sums.new l
        ≡ int_wrap w32 (dot rough.now (standing numbers.now variables (length rough.now) (first + l))) }
{
    clear(sums);
    for k in 0..rough.len() {
        add_products(sums, rough[k], row_at(numbers, variables, k), first);
    }
}

fn clear(sums: &mut [i32])
    ensures { (l : ℕ) → l < length sums.new → number sums.new l ≡ pos 0 }
{
    for sum in sums.iter_mut() {
        *sum = 0;
    }
}

/// The same sums for as many columns as are summed side by side. It stays a function of its own in the compiled
/// program, where the sums then need no memory until they are done.
#[inline(never)]
pub(crate) fn full_sums(
    numbers: &[i32],
    variables: usize,
    first: usize,
    rough: &[i32],
) -> [i32; LANES]
    requires long { length numbers.now ≡ length rough.now * variables }
    requires within { first + 32 ≤ variables }
    ensures long { length result ≡ 32 }
    ensures sums { (l : ℕ) → l < 32 → number result l
        ≡ int_wrap w32 (dot rough.now (standing numbers.now variables (length rough.now) (first + l))) }
{
    let mut sums = [0i32; LANES];
    clear(&mut sums);
    for k in 0..rough.len() {
        add_block(&mut sums, rough[k], row_at(numbers, variables, k), first);
    }
    sums
}

// Adds the products of the factor and as many of the row's numbers from `first` on.
#[inline(always)]
fn add_block(sums: &mut [i32; LANES], factor: i32, row: &[i32], first: usize)
    requires within { first + 32 ≤ length row.now }
    requires fit { (l : ℕ) → l < 32 → FitsSigned w32 (number sums.old l) }
    ensures { (l : ℕ) → l < 32 → number sums.new l
        ≡ int_wrap w32 (number sums.old l +ℤ factor *ℤ number row.now (first + l)) }
{
    if factor == 0 {
        return;
    }
    let block = block_of(row, first);
    for l in 0..LANES {
        sums[l] = wrapped_32(sums[l], factor, block[l]);
    }
}

#[inline(always)]
fn block_of(row: &[i32], first: usize) -> &[i32]
    requires { first + 32 ≤ length row.now }
    ensures value { result.now ≡ take 32 (drop first row.now) }
    ensures long { length result.now ≡ 32 }
{
    &row[first..first + LANES]
}

// Adds the products of the factor and the row's numbers from `first` on.
fn add_products(sums: &mut [i32], factor: i32, row: &[i32], first: usize)
    requires within { first + length sums.old ≤ length row.now }
    requires fit { (l : ℕ) → l < length sums.old → FitsSigned w32 (number sums.old l) }
    ensures { (l : ℕ) → l < length sums.old → number sums.new l
        ≡ int_wrap w32 (number sums.old l +ℤ factor *ℤ number row.now (first + l)) }
{
    if factor == 0 {
        return;
    }
    for l in 0..sums.len() {
        sums[l] = wrapped_32(sums[l], factor, row[first + l]);
    }
}

#[inline(always)]
fn wrapped_32(sum: i32, a: i32, b: i32) -> i32
    ensures { result ≡ int_wrap w32 (sum +ℤ a *ℤ b) }
{
    sum.wrapping_add(a.wrapping_mul(b))
}

/// The least of the sums.
pub(crate) fn least(sums: &[i32]) -> i32
    ensures { (l : ℕ) → l < length sums.now → result ≤ℤ number sums.now l }
{
    let mut least = i32::MAX;
    for sum in sums {
        least = least.min(*sum);
    }
    least
}

/// The greatest size of the sums.
pub(crate) fn greatest_size(sums: &[i32]) -> u32
    ensures { (l : ℕ) → l < length sums.now → unsigned_abs (number sums.now l) ≤ result }
{
    let mut greatest = 0;
    for sum in sums {
        greatest = greatest.max(sum.unsigned_abs());
    }
    greatest
}

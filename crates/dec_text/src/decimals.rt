ghost use Rattle.std.specs.Prelude.{◌≡◌, ℕ, ◌+◌, ◌-◌, ◌*◌, ◌/◌, ◌^◌, ◌<◌, ◌≤◌, ◌++◌, min, true, false, [], length, take, drop, MatchOption, IfSome, IsErr};
ghost use Rattle.std.specs.List.{list_all, list_any, before_first, after_first, position_or_len};
ghost use Rattle.std.specs.Char.{is_ascii_digit, digit_value};
ghost use Rattle.std.specs.Str.Parse.{digits_value, digits_value_after};
ghost use Rattle.text_spec.specs.Numbers.{is_negative, unsigned, is_point, is_exponent_mark, whole_part, fraction, exponent, is_exponent, has_good_exponent, is_decimal, exponent_up, exponent_down, largest_magnitude, magnitude, decimal_value};

use crate::digits::{LARGEST, are_all_digits, value_after};
use thiserror::Error;

const LONGEST_TOKEN: usize = 40;

const LONGEST_EXPONENT: usize = 3;

/// The token is no number, or is longer than 40 bytes.
#[derive(Clone, Copy, Debug, PartialEq, Eq, Error)]
#[error("not a number")]
pub struct BadNumber;

/// Reads a decimal such as `-12.5e+3`, in units of 10^-places, truncated toward zero. Its absolute value is at most
/// 10^30.
///
/// It has an optional sign, digits with an optional point before, among or after them, and optionally `e` or `E` with
/// an optional sign and one to three digits.
#[tactic(auto, unfolding(text_spec::specs::Numbers::decimal_value))]
pub fn read_decimal(token: &[u8], places: u32) -> Result<i128, BadNumber>
    requires { places ≤ 6 }
    ensures { MatchOption (decimal_value places token.now) (IsErr result) (λ n. result ≡ Ok n) }
{
    let Some(size) = read_magnitude(token, places) else {
        return Err(BadNumber);
    };
    let value = size as i128;
    Ok(if has_minus(token) { -value } else { value })
}

// The number of a decimal without its sign.
fn read_magnitude(token: &[u8], places: u32) -> Option<u128>
    requires { places ≤ 6 }
    ensures value { MatchOption result (is_decimal token.now ≡ false) (λ m. (is_decimal token.now ≡ true) × (m ≡ magnitude places token.now)) }
    ensures bound { IfSome result (λ m. m ≤ largest_magnitude) }
{
    if token.len() > LONGEST_TOKEN {
        return None;
    }
    let (whole, decimals) = parts_of_mantissa(token);
    if whole.is_empty() && decimals.is_empty()
        || !are_all_digits(whole)
        || !are_all_digits(decimals)
    {
        return None;
    }
    let (up, down) = read_tens(token)?;
    Some(scaled(whole, decimals, places as usize + up, decimals.len() + down))
}

// The part before the point, and the part behind it.
fn parts_of_mantissa(token: &[u8]) -> (&[u8], &[u8])
    ensures whole { result.0.now ≡ whole_part token.now }
    ensures decimals { result.1.now ≡ fraction token.now }
    ensures fits { length result.0.now + length result.1.now ≤ length token.now }
{
    let (mantissa, _) = split_at_exponent(without_sign(token));
    split_at_point(mantissa)
}

// By how many tens the exponent multiplies and divides, of which one is 0, or none where it is no exponent.
fn read_tens(token: &[u8]) -> Option<(usize, usize)>
    ensures value { MatchOption result (has_good_exponent token.now ≡ false) (λ t. (has_good_exponent token.now ≡ true) × (t.0 ≡ exponent_up token.now) × (t.1 ≡ exponent_down token.now)) }
    ensures bound { IfSome result (λ t. (t.0 < 1000) × (t.1 < 1000)) }
{
    let (_, power) = split_at_exponent(without_sign(token));
    let Some(bytes) = power else {
        return Some((0, 0));
    };
    let tens = read_exponent(bytes)?;
    if has_minus(bytes) {
        return Some((0, tens));
    }
    Some((tens, 0))
}

// The magnitude of an exponent.
fn read_exponent(bytes: &[u8]) -> Option<usize>
    ensures value { MatchOption result (is_exponent bytes.now ≡ false) (λ e. (is_exponent bytes.now ≡ true) × (e ≡ digits_value 10 (unsigned bytes.now))) }
    ensures bound { IfSome result (λ e. e < 1000) }
{
    let digits = without_sign(bytes);
    if digits.is_empty() || digits.len() > LONGEST_EXPONENT || !are_all_digits(digits) {
        return None;
    }
    Some(value_after(0, digits) as usize)
}

// The number that the digits before and behind a point write in a row, times 10^up and cut after a division by 10^down.
fn scaled(whole: &[u8], decimals: &[u8], up: usize, down: usize) -> u128
    requires short { length whole.now + length decimals.now ≤ 40 }
    requires whole { list_all is_ascii_digit whole.now ≡ true }
    requires decimals { list_all is_ascii_digit decimals.now ≡ true }
    ensures { result ≡ min largest_magnitude (digits_value 10 (whole.now ++ decimals.now) * 10 ^ up / 10 ^ down) }
{
    let digits = whole.len() + decimals.len();
    if up >= down {
        times_ten(value_of_front(whole, decimals, digits), up - down)
    } else {
        value_of_front(whole, decimals, digits.saturating_sub(down - up))
    }
}

// The value times 10^zeros, or `LARGEST` where it is above.
#[tactic(auto, using(crate::proofs::Values::ten_mono))]
fn times_ten(value: u128, zeros: usize) -> u128
    requires { value ≤ LARGEST }
    ensures { result ≡ min largest_magnitude (value * 10 ^ zeros) }
{
    if value == 0 {
        0
    } else if zeros > 30 {
        LARGEST
    } else {
        value.saturating_mul(10u128.pow(zeros as u32)).min(LARGEST)
    }
}

// What the first `kept` of the digits before and behind a point write, or `LARGEST` where it is above.
#[tactic(auto, using(crate::proofs::Values::front_of_both, crate::proofs::Values::all_take))]
fn value_of_front(whole: &[u8], decimals: &[u8], kept: usize) -> u128
    requires whole { list_all is_ascii_digit whole.now ≡ true }
    requires decimals { list_all is_ascii_digit decimals.now ≡ true }
    ensures { result ≡ min largest_magnitude (digits_value 10 (take kept (whole.now ++ decimals.now))) }
{
    let of_whole = kept.min(whole.len());
    let of_decimals = (kept - of_whole).min(decimals.len());
    value_after(value_after(0, &whole[..of_whole]), &decimals[..of_decimals])
}

fn has_minus(bytes: &[u8]) -> bool
    ensures { result ≡ is_negative bytes.now }
{
    matches!(bytes, [b'-', ..])
}

fn without_sign(bytes: &[u8]) -> &[u8]
    ensures value { result.now ≡ unsigned bytes.now }
    ensures fits { length result.now ≤ length bytes.now }
{
    match bytes {
        [b'+' | b'-', rest @ ..] => rest,
        _ => bytes,
    }
}

// The part before the exponent's mark, and the part behind it, where there is one.
#[tactic(auto, using(crate::proofs::Marks::marked, crate::proofs::Marks::unmarked, crate::proofs::Marks::nothing_behind))]
fn split_at_exponent(bytes: &[u8]) -> (&[u8], Option<&[u8]>)
    ensures front { result.0.now ≡ before_first is_exponent_mark bytes.now }
    ensures fits { length result.0.now ≤ length bytes.now }
    ensures back { MatchOption result.1 ((list_any is_exponent_mark bytes.now ≡ false) × (after_first is_exponent_mark bytes.now ≡ [])) (λ e. (list_any is_exponent_mark bytes.now ≡ true) × (e.now ≡ after_first is_exponent_mark bytes.now)) }
{
    let at = exponent_mark_at(bytes);
    let (front, back) = split_around(bytes, at);
    if at < bytes.len() {
        return (front, Some(back));
    }
    (front, None)
}

// The part before the point, and the part behind it.
fn split_at_point(bytes: &[u8]) -> (&[u8], &[u8])
    ensures front { result.0.now ≡ before_first is_point bytes.now }
    ensures back { result.1.now ≡ after_first is_point bytes.now }
    ensures fits { length result.0.now + length result.1.now ≤ length bytes.now }
{
    split_around(bytes, point_at(bytes))
}

// The parts before and behind the byte at that place.
fn split_around(bytes: &[u8], at: usize) -> (&[u8], &[u8])
    requires { at ≤ length bytes.now }
    ensures front { result.0.now ≡ take at bytes.now }
    ensures back { result.1.now ≡ drop (at + 1) bytes.now }
{
    let (front, rest) = bytes.split_at(at);
    match rest {
        [_, back @ ..] => (front, back),
        [] => (front, rest),
    }
}

fn exponent_mark_at(bytes: &[u8]) -> usize
    ensures fits { result ≤ length bytes.now }
    ensures value { result ≡ position_or_len is_exponent_mark bytes.now }
{
    for (i, byte) in bytes.iter().enumerate() {
        if matches!(byte, b'e' | b'E') {
            return i;
        }
    }
    bytes.len()
}

fn point_at(bytes: &[u8]) -> usize
    ensures fits { result ≤ length bytes.now }
    ensures value { result ≡ position_or_len is_point bytes.now }
{
    for (i, byte) in bytes.iter().enumerate() {
        if *byte == b'.' {
            return i;
        }
    }
    bytes.len()
}

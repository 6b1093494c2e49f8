//! Digits that spell a number.
ghost use Rattle.std.specs.Prelude.{◌≡◌, ◌+◌, ◌-◌, ◌*◌, ◌^◌, ◌<◌, ◌≤◌, [], ◌∷◌, length, take, drop, Some, None, IfSome, false};
ghost use Rattle.cert_scan.specs.Runs.{SpellsOn};
ghost use Rattle.cert_scan.specs.Digits.{Spell};
ghost use Rattle.cert_scan.specs.Ahead.{IsNumberAt, byte_behind};

use crate::bytes::with_digit;
use crate::words::{leading_digits, word_at};

// Any number of so many digits fits 64 bits.
pub(crate) const SHORT: usize = 18;

static TENS: [u64; 9] = [
    1,
    10,
    100,
    1_000,
    10_000,
    100_000,
    1_000_000,
    10_000_000,
    100_000_000,
];

// The least number of so many digits, of which the first is 0 only where it is alone. No number has none.
static LEAST: [u64; SHORT + 1] = [
    u64::MAX,
    0,
    10,
    100,
    1_000,
    10_000,
    100_000,
    1_000_000,
    10_000_000,
    100_000_000,
    1_000_000_000,
    10_000_000_000,
    100_000_000_000,
    1_000_000_000_000,
    10_000_000_000_000,
    100_000_000_000_000,
    1_000_000_000_000_000,
    10_000_000_000_000_000,
    100_000_000_000_000_000,
];

// A number of few digits. `last` says that its line ends with the byte behind it; else a space stands there. The bytes go
// on `behind` that.
#[derive(Clone, Copy)]
pub(crate) struct ShortNumber {
    pub value: u64,
    pub last: bool,
    pub behind: usize,
}

// The most bytes of a number of at most three digits, and of a short one, with the byte behind it.
pub(crate) const SMALL_ROOM: usize = 4;

pub(crate) const ROOM: usize = SHORT + 1;

// The short number that stands whole at this place, with the byte behind it.
#[inline(always)]
pub(crate) fn number_at(bytes: &[u8], at: usize) -> Option<ShortNumber>
    requires { at + 19 ≤ length bytes.now }
    ensures { IfSome result (λ number. IsNumberAt bytes.now at number.value number.last number.behind) }
{
    let (digits, value) = short_digits(bytes, at);
    if value < least_of(digits) {
        return None;
    }
    number_of(bytes, at, digits, value)
}

// The number of at most three digits that stands whole at this place, with the byte behind it. It is read byte by byte,
// which is faster where most numbers are as long as the one before.
#[inline(always)]
fn small_number_at(bytes: &[u8], at: usize) -> Option<ShortNumber>
    requires { at + 4 ≤ length bytes.now }
    ensures number { IfSome result (λ number. IsNumberAt bytes.now at number.value number.last number.behind) }
    ensures near { IfSome result (λ number. number.behind ≤ at + 4) }
{
    let first = digit_of(bytes[at])?;
    let Some(second) = digit_of(bytes[at + 1]) else {
        return number_of(bytes, at, 1, first);
    };
    if first < 1 {
        return None;
    }
    let pair = first * 10 + second;
    let Some(third) = digit_of(bytes[at + 2]) else {
        return number_of(bytes, at, 2, pair);
    };
    number_of(bytes, at, 3, pair * 10 + third)
}

// The number that so many digits spell, with the byte behind it, if that byte may stand there.
#[inline(always)]
fn number_of(bytes: &[u8], at: usize, digits: usize, value: u64) -> Option<ShortNumber>
    requires room { at + digits < length bytes.now }
    requires spells { SpellsOn None (take digits (drop at bytes.now)) (Some value) }
    ensures number { IfSome result (λ number. IsNumberAt bytes.now at number.value number.last number.behind) }
    ensures behind { IfSome result (λ number. number.behind ≡ at + digits + 1) }
{
    let last = ends_line(bytes[at + digits])?;
    Some(ShortNumber {
        value,
        last,
        behind: at + digits + 1,
    })
}

// A short number with a space behind it, and where the bytes go on behind that.
#[inline(always)]
pub(crate) fn number_ahead(bytes: &[u8], at: usize) -> Option<(u64, usize)>
    requires { at + 19 ≤ length bytes.now }
    ensures { IfSome result (λ number. IsNumberAt bytes.now at number.0 false number.1) }
{
    let number = number_at(bytes, at)?;
    if number.last {
        return None;
    }
    Some((number.value, number.behind))
}

// The same of a number of at most three digits.
#[inline(always)]
pub(crate) fn small_ahead(bytes: &[u8], at: usize) -> Option<(u64, usize)>
    requires { at + 4 ≤ length bytes.now }
    ensures number { IfSome result (λ number. IsNumberAt bytes.now at number.0 false number.1) }
    ensures near { IfSome result (λ number. number.1 ≤ at + 4) }
{
    let number = small_number_at(bytes, at)?;
    if number.last {
        return None;
    }
    Some((number.value, number.behind))
}

#[inline(always)]
fn least_of(digits: usize) -> u64
    requires { digits ≤ 18 }
    ensures none { digits ≡ 0 → 10 ^ 18 ≤ result }
    ensures several { 2 ≤ digits → result ≡ 10 ^ (digits - 1) }
{
    LEAST[digits]
}

// Whether a number's line ends with the byte behind it, if that byte may stand there.
#[inline(always)]
fn ends_line(byte: u8) -> Option<bool>
    ensures { IfSome result (λ last. byte ≡ byte_behind last) }
{
    match byte {
        b'\n' => Some(true),
        b' ' => Some(false),
        _ => None,
    }
}

// How many of the bytes from this one on are digits, up to 18, and the number that they spell.
#[inline(always)]
fn short_digits(bytes: &[u8], at: usize) -> (usize, u64)
    requires { at + 18 ≤ length bytes.now }
    ensures few { result.0 ≤ 18 }
    ensures spell { Spell (take result.0 (drop at bytes.now)) result.1 }
{
    let (front, value) = leading_digits(word_at(bytes, at));
    if front < 8 {
        return (front, value);
    }
    let (back, more) = leading_digits(word_at(bytes, at + 8));
    let long = value * ten_to(back) + more;
    if back < 8 {
        return (8 + back, long);
    }
    last_digits(bytes, at, long)
}

#[inline(always)]
fn ten_to(n: usize) -> u64
    requires { n ≤ 8 }
    ensures { result ≡ 10 ^ n }
{
    TENS[n]
}

// The last digits of a short number, behind 16.
fn last_digits(bytes: &[u8], at: usize, front: u64) -> (usize, u64)
    requires room { at + 18 ≤ length bytes.now }
    requires front { Spell (take 16 (drop at bytes.now)) front }
    ensures few { result.0 ≤ 18 }
    ensures spell { Spell (take result.0 (drop at bytes.now)) result.1 }
{
    let mut value = front;
    for i in 16..SHORT {
        let Some(digit) = digit_of(bytes[at + i]) else {
            return (i, value);
        };
        value = value * 10 + digit;
    }
    (SHORT, value)
}

// The digit that the byte is, if it is one.
fn digit_of(byte: u8) -> Option<u64>
    ensures { IfSome result (λ digit. (byte ≡ 48 + digit) × (digit ≤ 9)) }
{
    let digit = byte.wrapping_sub(b'0');
    if digit > 9 {
        return None;
    }
    Some(digit as u64)
}

// How many of the bytes are digits that go on with a number, and the number with them.
pub(crate) fn more_digits(first: Option<u128>, bytes: &[u8]) -> (usize, Option<u128>)
    ensures within { result.0 ≤ length bytes.now }
    ensures spelled { SpellsOn first (take result.0 bytes.now) result.1 }
{
    if first.is_some() || bytes.len() < SHORT {
        return long_digits(first, bytes);
    }
    let (front, short) = short_digits(bytes, 0);
    if front < 1 {
        return (0, None);
    }
    if bytes[0] == b'0' {
        return (1, Some(0));
    }
    let (back, value) = long_digits(Some(short as u128), &bytes[front..]);
    (front + back, value)
}

fn long_digits(first: Option<u128>, bytes: &[u8]) -> (usize, Option<u128>)
    ensures within { result.0 ≤ length bytes.now }
    ensures spelled { SpellsOn first (take result.0 bytes.now) result.1 }
{
    let mut value = first;
    for (i, byte) in bytes.iter().enumerate() {
        let Some(more) = digit_behind(value, *byte) else {
            return (i, value);
        };
        value = Some(more);
    }
    (bytes.len(), value)
}

// The number with this byte behind it, if it is a digit that may stand there.
fn digit_behind(value: Option<u128>, byte: u8) -> Option<u128>
    ensures { IfSome result (λ more. SpellsOn value (byte ∷ []) (Some more)) }
{
    if byte < b'0' || byte > b'9' {
        return None;
    }
    with_digit(value, byte)
}

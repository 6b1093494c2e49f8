ghost use Rattle.std.specs.Prelude.{◌≡◌, ◌≤◌, ◌+◌, ◌/◌, ◌%◌, ◌^◌, ◌∷◌, ◌++◌, List, ℕ, ℤ, pos, ◌≤ℤ◌, length, drop, nat_abs, replicate, decimal};
ghost use Rattle.std.specs.Fmt.{signed_decimal};
ghost use Rattle.text_spec.specs.Fixed.{zero_padded, fixed_text};
ghost use Rattle.hub_io.specs.Outside.{Puts, PutsThrough};

use hub_io::{Buffer, Failed, Sink};
use itoa::Integer;

// How many bytes `itoa` writes in: it leaves one at least before the digits of a `u128`.
const ROOM: usize = 40;

// The most places for which ten to that power is a `u128`.
const MOST_PLACES: u32 = 38;

/// Puts a number in decimal digits, with a minus where it is negative, as one put.
pub fn put_number<K: Sink>(value: i128, sink: &mut K) -> Result<(), Failed>
    ensures { Puts K.taken K.faults sink.old sink.new result (signed_decimal value) }
{
    sink.put(itoa::Buffer::new().format(value).as_bytes())
}

/// Puts a number in units of 10^-places: its whole part, a point, and exactly `places` decimals. Where `places` is 0,
/// one 0 follows the point.
pub fn put_fixed<K: Sink>(value: i128, places: u32, sink: &mut K) -> Result<(), Failed>
    requires { pos 0 ≤ℤ value }
    ensures { Puts K.taken K.faults sink.old sink.new result (fixed_text places (nat_abs value)) }
{
    let mut buffer = Buffer::new();
    put_with_point(value.unsigned_abs(), places, &mut buffer, sink)?;
    buffer.finish(sink)
}

/// Puts a number in units of 10^-places through a buffer, as `put_fixed` does.
pub(crate) fn put_with_point<K: Sink>(
    value: u128,
    places: u32,
    buffer: &mut Buffer,
    sink: &mut K,
) -> Result<(), Failed>
    ensures { PutsThrough K.taken K.faults sink.old sink.new buffer.old buffer.new result (fixed_text places value) }
{
    let (whole, decimals) = split_at_places(value, places);
    put_count(whole, buffer, sink)?;
    put_decimals(decimals, places, buffer, sink)
}

/// Puts a space and a number in decimal digits into a buffer, which the caller finishes.
pub fn put_after_space<K: Sink>(
    value: u128,
    buffer: &mut Buffer,
    sink: &mut K,
) -> Result<(), Failed>
    ensures { PutsThrough K.taken K.faults sink.old sink.new buffer.old buffer.new result (32 ∷ decimal value) }
{
    let mut bytes = [0; ROOM];
    let start = write_count(value, &mut bytes) - 1;
    bytes[start] = b' ';
    buffer.put(&bytes[start..], sink)
}

// Writes the digits of a number at the end of the bytes, and tells where they start. A number of 64 bits is written in
// 64 bits, which is faster.
#[inline]
fn write_count(value: u128, bytes: &mut [u8; ROOM]) -> usize
    ensures start { result + length (decimal value) ≡ 40 }
    ensures room { 1 ≤ result }
    ensures written { drop result bytes.new ≡ decimal value }
{
    if value <= u64::MAX as u128 {
        return (value as u64).write(bytes);
    }
    value.write(bytes)
}

/// Puts a number in decimal digits.
pub(crate) fn put_count<K: Sink>(
    value: u128,
    buffer: &mut Buffer,
    sink: &mut K,
) -> Result<(), Failed>
    ensures { PutsThrough K.taken K.faults sink.old sink.new buffer.old buffer.new result (decimal value) }
{
    if value <= u64::MAX as u128 {
        return buffer.put(itoa::Buffer::new().format(value as u64).as_bytes(), sink);
    }
    buffer.put(itoa::Buffer::new().format(value).as_bytes(), sink)
}

fn put_decimals<K: Sink>(
    decimals: u128,
    places: u32,
    buffer: &mut Buffer,
    sink: &mut K,
) -> Result<(), Failed>
    ensures { PutsThrough K.taken K.faults sink.old sink.new buffer.old buffer.new result (46 ∷ zero_padded places decimals) }
{
    buffer.put(b".", sink)?;
    put_padded(decimals, places as usize, buffer, sink)
}

fn put_padded<K: Sink>(
    number: u128,
    width: usize,
    buffer: &mut Buffer,
    sink: &mut K,
) -> Result<(), Failed>
    ensures { PutsThrough K.taken K.faults sink.old sink.new buffer.old buffer.new result (zero_padded width number) }
{
    let mut digits = itoa::Buffer::new();
    let text = digits.format(number).as_bytes();
    put_zeros(width.saturating_sub(text.len()), buffer, sink)?;
    buffer.put(text, sink)
}

fn put_zeros<K: Sink>(count: usize, buffer: &mut Buffer, sink: &mut K) -> Result<(), Failed>
    ensures { PutsThrough K.taken K.faults sink.old sink.new buffer.old buffer.new result (replicate count 48) }
{
    let mut left = count;
    while left > 0 {
        buffer.put(b"0", sink)?;
        left -= 1;
    }
    Ok(())
}

// The whole part and the decimals of a number in units of 10^-places.
#[tactic(auto, using(crate::proofs::Values::ten_mono, crate::proofs::Values::ten_pos, crate::proofs::Values::no_whole, crate::proofs::Values::all_rest))]
fn split_at_places(value: u128, places: u32) -> (u128, u128)
    ensures whole { result.0 ≡ value / 10 ^ places }
    ensures decimals { result.1 ≡ value % 10 ^ places }
{
    if places > MOST_PLACES {
        return (0, value);
    }
    let unit = 10u128.pow(places);
    (value / unit, value % unit)
}

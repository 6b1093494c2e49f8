//! Up to eight leading digits of eight bytes, all at once.
//!
//! Eight bytes of a text are one word, the first of them lowest. Where the bits of `0` are flipped, a digit's byte is
//! the digit's value, and any other byte is at least 10. Three multiplications then join eight digits: to pairs, to
//! fours, and to one number.
ghost use Rattle.std.specs.Prelude.{◌≡◌, ℕ, ◌+◌, ◌-◌, ◌*◌, ◌%◌, ◌^◌, ◌<◌, ◌≤◌, List, length, map, take, drop};
ghost use Rattle.cert_scan.specs.Digits.{spelled, Spell, AreEight, word_of, mark};

// The byte `0`, eight times.
const ZEROS: u64 = 0x3030_3030_3030_3030;

// The eight bytes from this one on.
#[inline(always)]
pub(crate) fn word_at(bytes: &[u8], at: usize) -> u64
    requires { at + 8 ≤ length bytes.now }
    ensures word { result ≡ word_of (take 8 (drop at bytes.now)) }
    ensures eight { AreEight 256 (take 8 (drop at bytes.now)) }
{
    u64::from_le_bytes([
        bytes[at],
        bytes[at + 1],
        bytes[at + 2],
        bytes[at + 3],
        bytes[at + 4],
        bytes[at + 5],
        bytes[at + 6],
        bytes[at + 7],
    ])
}

// How many of eight bytes are digits, from the first on, and the number that they spell.
#[inline(always)]
pub(crate) fn leading_digits(word: u64) -> (usize, u64)
    ensures few { result.0 ≤ 8 }
    ensures spell { (bytes : List ℕ) → AreEight 256 bytes → word ≡ word_of bytes
        → Spell (take result.0 bytes) result.1 }
{
    let lanes = word ^ ZEROS;
    let others = marks(lanes);
    if others == 0 {
        return (8, joined(lanes));
    }
    let count = others.trailing_zeros() / 8;
    (count as usize, joined(moved_up(lanes, count)))
}

// The high bit of each byte that is 10 or more. No sum carries into the next byte.
#[inline(always)]
fn marks(word: u64) -> u64
    ensures { (bytes : List ℕ) → AreEight 256 bytes → word ≡ word_of bytes → result ≡ word_of (map mark bytes) }
{
    ((word & 0x7f7f_7f7f_7f7f_7f7f) + 0x7676_7676_7676_7676 | word) & 0x8080_8080_8080_8080
}

// So many of the first bytes, behind zeros.
#[inline(always)]
fn moved_up(word: u64, count: u32) -> u64
    requires { count < 8 }
    ensures { result ≡ word * 256 ^ (8 - count) % 2 ^ 64 }
{
    // Two shifts, since no word is shifted by all its 64 bits.
    word << (56 - 8 * count) << 8
}

// The number that eight digits of these values spell.
#[inline(always)]
fn joined(word: u64) -> u64
    ensures { (digits : List ℕ) → AreEight 10 digits → word ≡ word_of digits → result ≡ spelled 0 digits }
{
    let pairs = word.wrapping_mul(10).wrapping_add(word >> 8);
    let first = (pairs & 0x0000_00ff_0000_00ff).wrapping_mul(100 + (1_000_000 << 32));
    let second = ((pairs >> 16) & 0x0000_00ff_0000_00ff).wrapping_mul(1 + (10_000 << 32));
    first.wrapping_add(second) >> 32
}

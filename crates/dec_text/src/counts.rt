ghost use Rattle.std.specs.Prelude.{◌≡◌};
ghost use Rattle.text_spec.specs.Numbers.{count_value};

use crate::digits::{are_all_digits, value_after};

/// Reads a count from `least` to `most`: digits alone, without leading zeros. `None` for anything else.
#[tactic(auto, unfolding(text_spec::specs::Numbers::count_value))]
pub fn read_count(text: &str, least: u64, most: u64) -> Option<u64>
    ensures { result ≡ count_value least most text.now }
{
    let digits = text.as_bytes();
    if digits.is_empty() || !are_all_digits(digits) || digits[0] == b'0' && digits.len() > 1 {
        return None;
    }
    let value = value_after(0, digits);
    if value < least as u128 || value > most as u128 {
        return None;
    }
    Some(value as u64)
}

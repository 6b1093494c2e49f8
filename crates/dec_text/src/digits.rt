ghost use Rattle.std.specs.Prelude.{◌≡◌, ◌<◌, ◌≤◌, min, true};
ghost use Rattle.std.specs.List.{list_all};
ghost use Rattle.std.specs.Char.{is_ascii_digit, digit_value};
ghost use Rattle.std.specs.Str.Parse.{digits_value_after};
ghost use Rattle.text_spec.specs.Numbers.{largest_magnitude};

/// 10^30. A number above is read as this one.
pub(crate) const LARGEST: u128 = 1_000_000_000_000_000_000_000_000_000_000;

pub(crate) fn are_all_digits(bytes: &[u8]) -> bool
    ensures { result ≡ list_all is_ascii_digit bytes.now }
{
    bytes.iter().all(|byte| byte.is_ascii_digit())
}

// What the digits write when they follow those of `value`, or `LARGEST` where it is above.
#[tactic(auto, using(crate::proofs::Values::capped_more, crate::proofs::Values::capped_all, crate::proofs::Values::passes_more))]
pub(crate) fn value_after(mut value: u128, digits: &[u8]) -> u128
    requires start { value ≤ LARGEST }
    requires digits { list_all is_ascii_digit digits.now ≡ true }
    ensures { result ≡ min largest_magnitude (digits_value_after 10 value digits.now) }
{
    for byte in digits {
        value = (10 * value + digit(*byte)).min(LARGEST);
    }
    value
}

fn digit(byte: u8) -> u128
    requires { is_ascii_digit byte ≡ true }
    ensures value { result ≡ digit_value byte }
    ensures bound { result < 10 }
{
    (byte - b'0') as u128
}

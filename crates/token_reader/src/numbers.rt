ghost use Rattle.std.specs.Prelude.{◌≡◌, ◌≤◌, nat_abs, Some, IfOk};
ghost use Rattle.text_spec.specs.Numbers.{decimal_value};
ghost use Rattle.hub_spec.specs.Limits.{most_nodes};
ghost use Rattle.file_spec.specs.Limits.{most_coordinate};
ghost use Rattle.file_spec.specs.Places.{size_fault, quantity_fault, index_fault, coordinate_fault, quantity};
ghost use Rattle.token_reader.specs.Unread.{told};

use dec_text::read_decimal;
use hub_model::{InstanceFault, MOST_NODES, unsigned_small};

/// The greatest size of a coordinate, in 10^-6.
const MOST_COORDINATE: u128 = 1_000_000_000_000;

/// The number of nodes that the token at this place writes, or what is wrong with it.
pub(crate) fn read_size(at: u64, token: &[u8]) -> Result<u32, InstanceFault>
    ensures fault { told result ≡ size_fault at (decimal_value 0 token.now) }
    ensures value { IfOk result (λ n. n ≡ quantity (decimal_value 0 token.now)) }
    ensures least { IfOk result (λ n. 1 ≤ n) }
    ensures limit { IfOk result (λ n. n ≤ most_nodes) }
{
    let Ok(got) = read_decimal(token, 0) else {
        return Err(InstanceFault::BadNumber { at });
    };
    if got < 1 || got > MOST_NODES as i128 {
        return Err(InstanceFault::Size { got });
    }
    Ok(got as u32)
}

/// The number in units of 10^-places that the token at this place writes, or what is wrong with it.
pub(crate) fn read_quantity(
    at: u64,
    token: &[u8],
    places: u32,
    limit: u64,
) -> Result<u64, InstanceFault>
    requires { places ≤ 6 }
    ensures fault { told result ≡ quantity_fault at limit (decimal_value places token.now) }
    ensures value { IfOk result (λ v. v ≡ quantity (decimal_value places token.now)) }
    ensures limit { IfOk result (λ v. v ≤ limit) }
{
    let Ok(value) = read_decimal(token, places) else {
        return Err(InstanceFault::BadNumber { at });
    };
    if value < 0 {
        return Err(InstanceFault::Negative { at });
    }
    if value > limit as i128 {
        return Err(InstanceFault::TooBig { at });
    }
    Ok(unsigned_small(value))
}

/// The number of one of n nodes that the token at this place writes, counted from 1, or what is wrong with it.
pub(crate) fn read_index(at: u64, token: &[u8], n: u32) -> Result<u32, InstanceFault>
    ensures fault { told result ≡ index_fault at n (decimal_value 0 token.now) }
    ensures value { IfOk result (λ k. k ≡ quantity (decimal_value 0 token.now)) }
    ensures least { IfOk result (λ k. 1 ≤ k) }
    ensures limit { IfOk result (λ k. k ≤ n) }
{
    let Ok(got) = read_decimal(token, 0) else {
        return Err(InstanceFault::BadNumber { at });
    };
    if got < 1 || got > n as i128 {
        return Err(InstanceFault::BadIndex { at });
    }
    Ok(got as u32)
}

/// The coordinate in 10^-6 that the token at this place writes, or what is wrong with it.
pub(crate) fn read_coordinate(at: u64, token: &[u8]) -> Result<i64, InstanceFault>
    ensures fault { told result ≡ coordinate_fault at (decimal_value 6 token.now) }
    ensures value { IfOk result (λ v. decimal_value 6 token.now ≡ Some v) }
    ensures limit { IfOk result (λ v. nat_abs v ≤ most_coordinate) }
{
    let Ok(value) = read_decimal(token, 6) else {
        return Err(InstanceFault::BadNumber { at });
    };
    if value.unsigned_abs() > MOST_COORDINATE {
        return Err(InstanceFault::TooBig { at });
    }
    Ok(value as i64)
}

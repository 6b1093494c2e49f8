ghost use Rattle.std.specs.Prelude.{◌≡◌, ◌+◌, ◌*◌, ◌^◌, ◌<◌, ◌≤◌, nat_abs};
ghost use Rattle.file_spec.specs.Distances.{planar_distance};

/// The integer square root: the largest whole number whose square is at most the argument.
pub fn root(value: u128) -> u64
    ensures not_above { result * result ≤ value }
    ensures next_above { value < (result + 1) * (result + 1) }
{
    value.isqrt() as u64
}

/// The Euclidean distance in 10^-3 of two points that differ by `dx` and `dy` (10^-6), divided by `divide` and rounded
/// down.
///
/// The root is cut once, to whole 10^-6, before the division. Rounding the exact quotient down gives the same number.
pub fn distance(dx: i64, dy: i64, divide: u32) -> u64
    requires x { nat_abs dx ≤ 2 * 10 ^ 12 }
    requires y { nat_abs dy ≤ 2 * 10 ^ 12 }
    requires divide_least { 1 ≤ divide }
    requires divide_most { divide ≤ 10 ^ 6 }
    ensures value { result ≡ planar_distance divide (nat_abs dx) (nat_abs dy) }
{
    let x = dx.unsigned_abs() as u128;
    let y = dy.unsigned_abs() as u128;
    root(x * x + y * y) / (1000 * divide as u64)
}

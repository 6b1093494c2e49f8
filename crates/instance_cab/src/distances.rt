ghost use Rattle.std.specs.Prelude.{◌≡◌, ◌*◌, ◌<◌, ◌≤◌, length, map, All, IfOk};
ghost use Rattle.hub_spec.specs.Limits.{most_nodes, most_distance};
ghost use Rattle.file_spec.specs.Files.{divided_distance};
ghost use Rattle.hub_model.specs.Amounts.{natural};
ghost use Rattle.hub_model.specs.GivenNumbers.{IsAmountUpTo};
ghost use Rattle.instance_cab.specs.Matrices.{divided_list};

use hub_model::{Numbers, unsigned_small};
use std::alloc::{AllocError, Global};

/// The distance of the commodity at this place: divided and rounded down, and 0 from a node to itself.
pub(crate) fn divided_distance(n: u32, divide: u32, place: u32, read: u64) -> u64
    requires divide { 1 ≤ divide }
    requires place { place < n * n }
    requires size { n ≤ most_nodes }
    ensures { result ≡ divided_distance divide n place read }
{
    if place / n == place % n {
        0
    } else {
        read / divide as u64
    }
}

/// Distances as they are read, divided.
pub(crate) fn divided_list(
    alloc: Global,
    read: &[i128],
    n: u32,
    divide: u32,
) -> Result<Numbers, AllocError>
    requires divide { 1 ≤ divide }
    requires size { n ≤ most_nodes }
    requires count { length read.now ≤ n * n }
    requires amounts { All (IsAmountUpTo most_distance) read.now }
    ensures { IfOk result (λ all. all ≡ divided_list divide n (map natural read.now)) }
{
    let mut distances = Vec::with_capacity(alloc, read.len())?;
    for (place, z) in read.iter().enumerate() {
        let distance = divided_distance(n, divide, place as u32, unsigned_small(*z));
        distances.push(i128::from(distance))?;
    }
    Ok(Numbers::from_vec(distances))
}

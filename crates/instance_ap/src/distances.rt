ghost use Rattle.std.specs.Prelude.{◌≡◌, ◌*◌, ◌<◌, ◌≤◌, length, map, All, IfOk};
ghost use Rattle.hub_spec.specs.Limits.{most_nodes};
ghost use Rattle.file_spec.specs.Limits.{most_divisor};
ghost use Rattle.hub_model.specs.Amounts.{natural, IsListedNumber};
ghost use Rattle.instance_ap.specs.Points.{coordinates_of, distance_between, distance_at, first_distances};

use crate::points::Point;
use fixed_distance::distance;
use hub_model::Numbers;
use std::alloc::{AllocError, Global};

// The distance from one point to another.
fn distance_between_points(from: &Point, to: &Point, divide: u32) -> u64
    requires least { 1 ≤ divide }
    requires most { divide ≤ most_divisor }
    ensures { result ≡ distance_between divide (coordinates_of from.now) (coordinates_of to.now) }
{
    distance(from.x - to.x, from.y - to.y, divide)
}

// The distance of the commodity that follows those of these distances. Where that of the way back stands among them, it
// is the same.
fn next_distance(points: &[Point], before: &[i128], divide: u32) -> i128
    requires least { 1 ≤ divide }
    requires most { divide ≤ most_divisor }
    requires nodes { length points.now ≤ most_nodes }
    requires place { length before.now < length points.now * length points.now }
    requires values { map natural before.now ≡ first_distances divide points.now (length before.now) }
    requires listed { All IsListedNumber before.now }
    ensures value { natural result ≡ distance_at divide points.now (length before.now) }
    ensures listed { IsListedNumber result }
{
    let n = points.len();
    let from = before.len() / n;
    let to = before.len() % n;
    if to < from {
        return before[to * n + from];
    }
    i128::from(distance_between_points(&points[from], &points[to], divide))
}

/// The distances between nodes that lie at these points, row by row.
pub(crate) fn distances(alloc: Global, points: &[Point], divide: u32) -> Result<Numbers, AllocError>
    requires least { 1 ≤ divide }
    requires most { divide ≤ most_divisor }
    requires nodes { length points.now ≤ most_nodes }
    ensures { IfOk result (λ all. all ≡ first_distances divide points.now (length points.now * length points.now)) }
{
    let n = points.len();
    let mut items = Vec::with_capacity(alloc, n * n)?;
    while items.len() < n * n {
        let next = next_distance(points, &items, divide);
        items.push(next)?;
    }
    Ok(Numbers::from_vec(items))
}

ghost use Rattle.std.specs.Prelude.{◌≡◌, ◌*◌, map, IfOk, IfErr, OnOk};
ghost use Rattle.file_spec.specs.Places.{a_coordinate, a_factor};
ghost use Rattle.hub_model.specs.Asked.{tail_of};
ghost use Rattle.hub_model.specs.Faults.{fault_of};
ghost use Rattle.hub_model.specs.Amounts.{natural};
ghost use Rattle.token_reader.specs.Unread.{later, value_here, AreLegal, IsFirstFault, StoppedAt};
ghost use Rattle.instance_ap.specs.Points.{coordinates_of};
ghost use Rattle.instance_ap.specs.Fronts.{point_here, points_front, tail_here, IsLegalTail, StoppedInTail};

use crate::points::Point;
use hub_model::{Factors, InstanceFault, MOST_COST_READ, MOST_FACTOR, Numbers, Refusal, Tail};
use std::alloc::{AllocError, Global};
use token_reader::Reader;

// Reads the next two tokens as a point.
fn read_point(reader: &mut Reader<'_>) -> Result<Point, InstanceFault>
    ensures legal { OnOk result (AreLegal a_coordinate 2 reader.old) }
    ensures value { IfOk result (λ p. coordinates_of p ≡ point_here reader.old) }
    ensures moved { OnOk result (reader.new ≡ later 2 reader.old) }
    ensures fault { IfErr result (λ f. IsFirstFault a_coordinate 2 reader.old (fault_of f)) }
{
    let x = reader.coordinate()?;
    let y = reader.coordinate()?;
    Ok(Point { x, y })
}

/// Reads the next tokens as the points of n nodes.
pub(crate) fn read_points(
    alloc: Global,
    reader: &mut Reader<'_>,
    n: u32,
) -> Result<Vec<Point>, Refusal>
    ensures legal { OnOk result (AreLegal a_coordinate (2 * n) reader.old) }
    ensures values { IfOk result (λ all. map coordinates_of all.items ≡ points_front n reader.old) }
    ensures moved { OnOk result (reader.new ≡ later (2 * n) reader.old) }
    ensures fault { IfErr result (StoppedAt a_coordinate (2 * n) reader.old) }
{
    let mut points = Vec::with_capacity(alloc, n as usize)?;
    for _node in 0..n {
        let point = read_point(reader).map_err(Refusal::Fault)?;
        points.push(point).map_err(AllocError::from)?;
    }
    Ok(points)
}

/// Reads the next three tokens as the factors of collection, trunk and delivery.
pub(crate) fn read_factors(reader: &mut Reader<'_>) -> Result<Factors, InstanceFault>
    ensures legal { OnOk result (AreLegal a_factor 3 reader.old) }
    ensures collect { IfOk result (λ f. natural f.collect ≡ value_here 3 reader.old) }
    ensures trunk { IfOk result (λ f. natural f.trunk ≡ value_here 3 (later 1 reader.old)) }
    ensures deliver { IfOk result (λ f. natural f.deliver ≡ value_here 3 (later 2 reader.old)) }
    ensures moved { OnOk result (reader.new ≡ later 3 reader.old) }
    ensures fault { IfErr result (λ f. IsFirstFault a_factor 3 reader.old (fault_of f)) }
{
    let collect = reader.quantity(3, MOST_FACTOR)?;
    let trunk = reader.quantity(3, MOST_FACTOR)?;
    let deliver = reader.quantity(3, MOST_FACTOR)?;
    Ok(Factors {
        collect: i128::from(collect),
        trunk: i128::from(trunk),
        deliver: i128::from(deliver),
    })
}

/// Reads the tail of a file with n nodes. Where `tail` says so, this is a fixed cost for each node, and then the
/// file's end.
pub(crate) fn read_tail(
    alloc: Global,
    reader: &mut Reader<'_>,
    tail: Tail,
    n: u32,
) -> Result<Option<Numbers>, Refusal>
    ensures legal { OnOk result (IsLegalTail (tail_of tail) n reader.old) }
    ensures costs { IfOk result (λ costs. costs ≡ tail_here (tail_of tail) n reader.old) }
    ensures fault { IfErr result (StoppedInTail (tail_of tail) n reader.old) }
{
    match tail {
        Tail::Ignore => Ok(None),
        Tail::Fixed => {
            let costs = reader.quantities(alloc, n, 6, MOST_COST_READ as u64)?;
            reader.end().map_err(Refusal::Fault)?;
            Ok(Some(costs))
        }
    }
}

//! The Pareto-optimal duals of a commodity and of its reverse. Where both have equal edges at equal costs, they share
//! one linear program, which runs once.

ghost use Rattle.std.specs.Prelude.{◌≡◌, ◌<◌, None, IfOk, IfSome};
ghost use Rattle.hub_spec.specs.Plans.{IsHubSet};
ghost use Rattle.core_spec.specs.CoreCuts.{MayBeMarked};
ghost use Rattle.core_cuts.specs.Ahead.{AreWays, IsRead};
ghost use Rattle.core_cuts.specs.Readings.{IsFound, IsNotFound};

use crate::core_duals::{CoreDual, UnitDual, found_by, unit_dual};
use crate::edges::edge_right;
use crate::ways::RouteWays;
use hub_model::Instance;
use std::alloc::{AllocError, Global};

/// The Pareto-optimal dual of a commodity, and that of its way back if it is known by then.
#[derive(Drop)]
pub(crate) struct DualPair {
    pub(crate) there: CoreDual,
    pub(crate) back: Option<CoreDual>,
}

/// The Pareto-optimal dual of the commodity from `i` to `j`, with that of its way back if the same run says it.
pub(crate) fn dual_pair(
    alloc: Global,
    instance: &Instance,
    i: u32,
    j: u32,
    hubs: &[u32],
) -> Result<Option<DualPair>, AllocError>
    requires from { i < instance.now.size }
    requires to { j < instance.now.size }
    requires may { MayBeMarked instance.now }
    requires set { IsHubSet instance.now hubs.now }
    ensures there { IfOk result (λ found. IfSome found (λ pair. IsFound instance.now hubs.now (i, j) pair.there)) }
    ensures back { IfOk result (λ found. IfSome found (λ pair. IfSome pair.back (IsFound instance.now hubs.now (j, i)))) }
    ensures none { IfOk result (λ found. found ≡ None → IsNotFound instance.now hubs.now (i, j)) }
{
    let ways = RouteWays::of(alloc, instance, i, j)?;
    match unit_dual(alloc, instance, i, j, hubs, &ways)? {
        Some(unit) => pair_by(alloc, instance, i, j, hubs, &ways, unit),
        None => Ok(None),
    }
}

/// The same by what is read of the commodity's run.
fn pair_by(
    alloc: Global,
    instance: &Instance,
    i: u32,
    j: u32,
    hubs: &[u32],
    ways: &RouteWays,
    unit: UnitDual,
) -> Result<Option<DualPair>, AllocError>
    requires from { i < instance.now.size }
    requires to { j < instance.now.size }
    requires may { MayBeMarked instance.now }
    requires set { IsHubSet instance.now hubs.now }
    requires ways { AreWays instance.now (i, j) ways.now.edges.items ways.now.rights.items }
    requires read { IsRead instance.now hubs.now (i, j) unit.prices unit.proof }
    ensures there { IfOk result (λ found. IfSome found (λ pair. IsFound instance.now hubs.now (i, j) pair.there)) }
    ensures back { IfOk result (λ found. IfSome found (λ pair. IfSome pair.back (IsFound instance.now hubs.now (j, i)))) }
    ensures none { IfOk result (λ found. found ≡ None → IsNotFound instance.now hubs.now (i, j)) }
{
    let back = dual_back(alloc, instance, i, j, hubs, ways, &unit)?;
    let UnitDual { prices, proof } = unit;
    match found_by(alloc, instance, i, j, hubs, &prices, proof)? {
        Some(there) => Ok(Some(DualPair { there, back })),
        None => Ok(None),
    }
}

/// The Pareto-optimal dual of the way back, if what is read of the run there is read of its own run too.
fn dual_back(
    alloc: Global,
    instance: &Instance,
    i: u32,
    j: u32,
    hubs: &[u32],
    ways: &RouteWays,
    unit: &UnitDual,
) -> Result<Option<CoreDual>, AllocError>
    requires from { i < instance.now.size }
    requires to { j < instance.now.size }
    requires may { MayBeMarked instance.now }
    requires set { IsHubSet instance.now hubs.now }
    requires ways { AreWays instance.now (i, j) ways.now.edges.items ways.now.rights.items }
    requires read { IsRead instance.now hubs.now (i, j) unit.now.prices unit.now.proof }
    ensures { IfOk result (λ found. IfSome found (λ d. IsFound instance.now hubs.now (j, i) d)) }
{
    if !may_be_same(instance, i, j) {
        return Ok(None);
    }
    let ways_back = RouteWays::of(alloc, instance, j, i)?;
    if !ways.are_same(&ways_back) {
        return Ok(None);
    }
    let proof = unit.proof.again(alloc)?;
    found_by(alloc, instance, j, i, hubs, &unit.prices, proof)
}

/// Tells whether the way back comes later, and the first candidate costs as much there as back: else its run is not wanted, or
/// is not the same.
fn may_be_same(instance: &Instance, i: u32, j: u32) -> bool
    requires from { i < instance.now.size }
    requires to { j < instance.now.size }
    requires may { MayBeMarked instance.now }
{
    let k = instance.candidates()[0];
    i < j && edge_right(instance, i, j, k, k) == edge_right(instance, j, i, k, k)
}

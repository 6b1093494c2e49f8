//! The cut of a hub set, by workers side by side.

ghost use Rattle.std.specs.Prelude.{◌≡◌, ◌≤◌, IfOk};
ghost use Rattle.hub_spec.specs.Plans.{IsHubSet};
ghost use Rattle.hub_spec.specs.Cuts.{cut_by};
ghost use Rattle.hub_spec.specs.Separation.{IsOrder, set_cut};
ghost use Rattle.cut_pool.specs.Entries.{entry_of};
ghost use Rattle.pareto_cuts.specs.Separations.{AreTablesOf};
ghost use Rattle.search_steps.specs.Pools.{IsSumsOf};

use crate::OriginSums;
use crate::adding::added;
use crate::joining::joined;
use crate::origin_duals::DualsByOrigin;
use crate::origins::SumsByOrigin;
use claim_board::answers;
use cut_pool::CutSums;
use hub_io::Gate;
use hub_model::{Cut, Dual, HubSet, Instance};
use pareto_cuts::{Separation, SetTables};
use std::alloc::{AllocError, Global};
use std::thread::Threads;

/// The Benders cut of the hub set over the order, with its duals, in 10^-12, by 1 to 64 workers. Each has its own
/// thread where one can be made. `workers_for` says how many are worth their start.
///
/// A worker passes the gate before each origin that it draws. The cut depends neither on the number of workers nor on
/// their schedule.
pub fn separate<R: Threads + Sync, G: Gate>(
    rt: &R,
    alloc: Global,
    instance: &Instance,
    set: HubSet,
    order: &[u32],
    workers: u32,
    gate: &G,
) -> Result<Cut, AllocError>
    requires set { IsHubSet instance.now set }
    requires order { IsOrder instance.now set order.now }
    requires workers { (1 ≤ workers) × (workers ≤ 64) }
    ensures hubs { IfOk result (λ c. c.hubs ≡ set) }
    ensures size { IfOk result (λ c. c.size ≡ instance.now.size) }
    ensures cut { IfOk result (λ c. c.cut ≡ set_cut instance.now set order.now) }
{
    let duals = set_duals(rt, alloc, instance, &set, order, workers, gate)?;
    Cut::gather(alloc, instance.size(), set, duals)
}

// The duals of the cut, one for each commodity in order.
fn set_duals<R: Threads + Sync, G: Gate>(
    rt: &R,
    alloc: Global,
    instance: &Instance,
    set: &HubSet,
    order: &[u32],
    workers: u32,
    gate: &G,
) -> Result<Vec<Dual>, AllocError>
    requires set { IsHubSet instance.now set.now }
    requires order { IsOrder instance.now set.now order.now }
    requires workers { (1 ≤ workers) × (workers ≤ 64) }
    ensures { IfOk result (λ duals. cut_by duals.items ≡ set_cut instance.now set.now order.now) }
{
    let tables = tables_of(alloc, instance, set, order)?;
    let separation = Separation::new(instance, set.members(), order, 0, &tables);
    let origins = DualsByOrigin {
        separation: &separation,
    };
    let rows = answers(rt, alloc, &origins, instance.size(), workers, gate)?;
    joined(alloc, &separation, rows)
}

/// The sums of the Benders cut of the hub set over the order, in 10^-12, by 1 to 64 workers. Each has its own thread
/// where one can be made. `workers_for` says how many are worth their start.
///
/// A worker passes the gate before each origin that it draws. The sums depend neither on the number of workers nor on
/// their schedule.
pub fn separate_sums<R: Threads + Sync, G: Gate>(
    rt: &R,
    alloc: Global,
    instance: &Instance,
    set: HubSet,
    order: &[u32],
    workers: u32,
    gate: &G,
) -> Result<CutSums, AllocError>
    requires set { IsHubSet instance.now set }
    requires order { IsOrder instance.now set order.now }
    requires workers { (1 ≤ workers) × (workers ≤ 64) }
    ensures hubs { IfOk result (λ s. s.hubs ≡ set) }
    ensures sums { IfOk result (λ s. IsSumsOf instance.now (entry_of s order.now)) }
{
    let tables = tables_of(alloc, instance, &set, order)?;
    let separation = Separation::new(instance, set.members(), order, 0, &tables);
    let origins = SumsByOrigin {
        separation: &separation,
    };
    let rows = answers(rt, alloc, &origins, instance.size(), workers, gate)?;
    let OriginSums { total, loads } = added(alloc, &separation, &rows)?;
    Ok(CutSums::new(set, total, loads))
}

// The tables of the hub set and the order, to all nodes.
fn tables_of(
    alloc: Global,
    instance: &Instance,
    set: &HubSet,
    order: &[u32],
) -> Result<SetTables, AllocError>
    requires set { IsHubSet instance.now set.now }
    requires order { IsOrder instance.now set.now order.now }
    ensures { IfOk result (λ t. AreTablesOf instance.now set.now order.now 0 instance.now.size t.legs) }
{
    let mut tables = SetTables::new(alloc, instance.size() as usize)?;
    tables.fill(instance, set, order, None);
    Ok(tables)
}

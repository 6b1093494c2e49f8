//! The Benders cut of a hub set, with its duals or by its sums alone.

ghost use Rattle.std.specs.Prelude.{◌≡◌, ℕ, ◌+◌, ◌<◌, ◌≤◌, length, slice_index, All, Contains, IfOk};
ghost use Rattle.hub_spec.specs.Problem.{opening_cost};
ghost use Rattle.hub_spec.specs.Plans.{IsHubSet, IsSetCost};
ghost use Rattle.hub_spec.specs.Cuts.{cut_by, total, load, IsCut, IsTight};
ghost use Rattle.hub_spec.specs.Separation.{IsOrder, IsSetCut, set_cut};

use crate::Scratch;
use crate::strong_duals::lent_dual;
use hub_model::{Cut, Dual, HubSet, Instance};
use std::alloc::{AllocError, Global};

/// The Benders cut of the hub set over this order of the other candidates.
///
/// It is tight: its total plus the fixed costs of the hubs is the cost of the hub set.
pub fn cut_of(
    alloc: Global,
    instance: &Instance,
    set: HubSet,
    order: &[u32],
) -> Result<Cut, AllocError>
    requires set { IsHubSet instance.now set }
    requires order { IsOrder instance.now set order.now }
    ensures hubs { IfOk result (λ c. c.hubs ≡ set) }
    ensures size { IfOk result (λ c. c.size ≡ instance.now.size) }
    ensures set_cut { IfOk result (λ c. IsSetCut instance.now set order.now c.cut) }
    ensures is { IfOk result (λ c. c.cut ≡ set_cut instance.now set order.now) }
    ensures cut { IfOk result (λ c. IsCut instance.now c.cut) }
    ensures no_load { IfOk result (λ c. (k : ℕ) → Contains set k → load c.cut k ≡ 0) }
    ensures cost { IfOk result (λ c. IsSetCost instance.now set (total c.cut + opening_cost instance.now set)) }
    ensures tight { IfOk result (λ c. IsTight instance.now set c.cut) }
{
    let rows = set_duals(alloc, instance, &set, order)?;
    Cut::gather(alloc, instance.size(), set, rows)
}

// The duals of the cut, one for each commodity in order.
fn set_duals(
    alloc: Global,
    instance: &Instance,
    set: &HubSet,
    order: &[u32],
) -> Result<Vec<Dual>, AllocError>
    requires set { IsHubSet instance.now set.now }
    requires order { IsOrder instance.now set.now order.now }
    ensures set_cut { IfOk result (λ rows. IsSetCut instance.now set.now order.now (cut_by rows.items)) }
    ensures cut { IfOk result (λ rows. IsCut instance.now (cut_by rows.items)) }
    ensures is { IfOk result (λ rows. cut_by rows.items ≡ set_cut instance.now set.now order.now) }
{
    let n = instance.size();
    let mut scratch = Scratch::new(alloc, instance)?;
    let mut rows = Vec::with_capacity(alloc, n as usize * n as usize)?;
    scratch.prepare(instance, set, order);
    for i in 0..n {
        scratch.work_out(instance, set, order, i);
        for j in 0..n {
            scratch.make_dual(instance, set, order, i, j);
            rows.push(lent_dual(alloc, &scratch)?)?;
        }
    }
    Ok(rows)
}

/// The total of the cut of the hub set over the order, in 10^-12. It overwrites `loads` with the cut's loads, one for
/// each node. It allocates nothing.
pub fn cut_sums(
    scratch: &mut Scratch,
    instance: &Instance,
    set: &HubSet,
    order: &[u32],
    loads: &mut [u128],
) -> u128
    requires room { instance.now.size ≤ scratch.old.room }
    requires set { IsHubSet instance.now set.now }
    requires order { IsOrder instance.now set.now order.now }
    requires long { length loads.old ≡ instance.now.size }
    ensures room { scratch.new.room ≡ scratch.old.room }
    ensures total { result ≡ total (set_cut instance.now set.now order.now) }
    ensures long { length loads.new ≡ instance.now.size }
    ensures loads { (k : ℕ) → k < instance.now.size → slice_index loads.new k ≡ load (set_cut instance.now set.now order.now) k }
{
    let mut total = 0;
    loads.fill(0);
    scratch.prepare(instance, set, order);
    for i in 0..instance.size() {
        scratch.work_out(instance, set, order, i);
        total += scratch.total(instance, set, order, i);
        scratch.add_loads(instance, set, order, i, loads);
    }
    total
}

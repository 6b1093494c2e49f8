//! The dual of one commodity.

ghost use Rattle.std.specs.Prelude.{◌≡◌, ◌<◌, ◌≤◌, IfOk};
ghost use Rattle.hub_spec.specs.Plans.{IsHubSet};
ghost use Rattle.hub_spec.specs.Cuts.{IsDual};
ghost use Rattle.hub_spec.specs.Separation.{IsOrder, IsMinimalDual, minimal_dual};

use crate::Scratch;
use hub_model::{Dual, HubSet, Instance};
use std::alloc::{AllocError, Global};

/// Makes the minimal dual of the commodity from `i` to `j` in the workspace. It allocates nothing.
pub fn strong_dual_in(
    scratch: &mut Scratch,
    instance: &Instance,
    i: u32,
    j: u32,
    set: &HubSet,
    order: &[u32],
)
    requires room { instance.now.size ≤ scratch.old.room }
    requires from { i < instance.now.size }
    requires to { j < instance.now.size }
    requires set { IsHubSet instance.now set.now }
    requires order { IsOrder instance.now set.now order.now }
    ensures room { scratch.new.room ≡ scratch.old.room }
    ensures is { scratch.new.dual ≡ minimal_dual instance.now set.now order.now (i, j) }
    ensures minimal { IsMinimalDual instance.now set.now order.now (i, j) scratch.new.dual }
    ensures dual { IsDual instance.now 1 (i, j) scratch.new.dual }
{
    scratch.make_single(instance, set, order, i, j);
}

/// The minimal dual of the commodity from `i` to `j`, strengthened in this order. It fails where memory runs out.
pub fn strong_dual(
    alloc: Global,
    instance: &Instance,
    i: u32,
    j: u32,
    set: &HubSet,
    order: &[u32],
) -> Result<Dual, AllocError>
    requires from { i < instance.now.size }
    requires to { j < instance.now.size }
    requires set { IsHubSet instance.now set.now }
    requires order { IsOrder instance.now set.now order.now }
    ensures is { IfOk result (λ d. d ≡ minimal_dual instance.now set.now order.now (i, j)) }
    ensures minimal { IfOk result (λ d. IsMinimalDual instance.now set.now order.now (i, j) d) }
    ensures dual { IfOk result (λ d. IsDual instance.now 1 (i, j) d) }
{
    let mut scratch = Scratch::new(alloc, instance)?;
    strong_dual_in(&mut scratch, instance, i, j, set, order);
    lent_dual(alloc, &scratch)
}

/// A copy of the dual in the workspace, in a type of its own.
pub(crate) fn lent_dual(alloc: Global, scratch: &Scratch) -> Result<Dual, AllocError>
    ensures { IfOk result (λ d. d ≡ scratch.now.dual) }
{
    let (a, u) = scratch.dual();
    let mut values = Vec::with_capacity(alloc, u.len())?;
    for value in u {
        values.push(*value)?;
    }
    Ok(Dual::new(a, values))
}

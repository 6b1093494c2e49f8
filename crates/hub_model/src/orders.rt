//! The candidates outside a hub set.

ghost use Rattle.std.specs.Prelude.{IfOk};
ghost use Rattle.std.specs.List.Sorted.{IsStrictlyIncreasing};
ghost use Rattle.hub_spec.specs.Separation.{IsOrder};

use crate::{HubSet, Instance, is_among};
use std::alloc::{AllocError, Global};

/// The candidates outside the hub set, ascending.
pub fn outside(alloc: Global, instance: &Instance, set: &HubSet) -> Result<Vec<u32>, AllocError>
    ensures order { IfOk result (λ nodes. IsOrder instance.now set.now nodes.items) }
    ensures ascend { IfOk result (λ nodes. IsStrictlyIncreasing nodes.items) }
{
    let hubs = set.members();
    let mut nodes = Vec::new(alloc);
    for k in instance.candidates() {
        if !is_among(hubs, *k) {
            nodes.push(*k)?;
        }
    }
    Ok(nodes)
}

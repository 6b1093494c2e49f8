//! The core problem of a commodity and a hub set.

ghost use Rattle.std.specs.Prelude.{◌≡◌, ◌<◌, IfOk};
ghost use Rattle.hub_spec.specs.Plans.{IsHubSet};
ghost use Rattle.core_spec.specs.CoreCuts.{MayBeMarked};
ghost use Rattle.core_cuts.specs.CoreTables.{core_edges, core_rights, core_table};

use crate::tables::core_rows;
use hub_model::Instance;
use plain_rows::PlainRows;
use std::alloc::{AllocError, Global};

/// The table before the first pivot, where the ways of the commodity and their costs are known.
pub(crate) fn first_table(
    alloc: Global,
    instance: &Instance,
    i: u32,
    j: u32,
    hubs: &[u32],
    edges: &[(u32, u32)],
    rights: &[i64],
) -> Result<PlainRows, AllocError>
    requires from { i < instance.now.size }
    requires to { j < instance.now.size }
    requires may { MayBeMarked instance.now }
    requires set { IsHubSet instance.now hubs.now }
    requires edges { edges.now ≡ core_edges instance.now (i, j) }
    requires rights { rights.now ≡ core_rights instance.now (i, j) }
    ensures { IfOk result (λ t. t ≡ core_table instance.now hubs.now (i, j)) }
{
    let candidates = instance.candidates();
    core_rows(alloc, candidates, hubs, edges, rights)
}

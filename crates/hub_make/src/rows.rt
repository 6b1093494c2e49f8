//! The numbers of the longer lines.

ghost use Rattle.std.specs.Prelude.{◌≡◌, ◌≤◌, map, IfOk};
ghost use Rattle.hub_make.specs.Numbers.{nodes, made_flow, made_cost};

use crate::numbers::{fixed_cost, flow};
use std::alloc::{AllocError, Global};

/// The flows from node i to each node.
#[tactic(auto, using(crate::proofs::Joining::next_in_row))]
pub(crate) fn flows_from(
    alloc: Global,
    seed: u64,
    size: u64,
    i: u64,
) -> Result<Vec<u64>, AllocError>
    requires seed { seed ≤ 1000000 }
    requires size { size ≤ 200 }
    requires origin { i ≤ 200 }
    ensures { IfOk result (λ row. row.items ≡ map (made_flow seed i) (nodes size)) }
{
    let mut row = Vec::new(alloc);
    for j in 0..size {
        row.push(flow(seed, i, j + 1))?;
    }
    Ok(row)
}

/// The fixed cost of each node.
#[tactic(auto, using(crate::proofs::Joining::next_in_row))]
pub(crate) fn fixed_costs(alloc: Global, seed: u64, size: u64) -> Result<Vec<u64>, AllocError>
    requires seed { seed ≤ 1000000 }
    requires size { size ≤ 200 }
    ensures { IfOk result (λ row. row.items ≡ map (made_cost seed size) (nodes size)) }
{
    let mut row = Vec::new(alloc);
    for i in 0..size {
        row.push(fixed_cost(seed, size, i + 1))?;
    }
    Ok(row)
}

ghost use Rattle.std.specs.Prelude.{◌≤◌, map, IfOk, IfErr};
ghost use Rattle.hub_spec.specs.Limits.{most_nodes};
ghost use Rattle.file_spec.specs.Files.{HasCosts};
ghost use Rattle.hub_model.specs.Amounts.{natural};
ghost use Rattle.hub_model.specs.Building.{AreGivenCosts};
ghost use Rattle.token_reader.specs.Refusals.{IsRefusedCosts};

use crate::kinds::ListKind;
use crate::lists::numbers;
use hub_model::Refusal;
use std::alloc::Global;
use token_reader::Reader;

/// Reads a costs file: a fixed cost for each of `n` nodes, in 10^-6, truncated, and nothing more.
pub fn read_costs(alloc: Global, bytes: &[u8], n: u32) -> Result<Vec<i128>, Refusal>
    requires least { 1 ≤ n }
    requires most { n ≤ most_nodes }
    ensures costs { IfOk result (λ costs. HasCosts n bytes.now (map natural costs.items)) }
    ensures naturals { IfOk result (λ costs. AreGivenCosts n costs.items) }
    ensures fault { IfErr result (IsRefusedCosts n bytes.now) }
{
    let mut reader = Reader::over(bytes);
    let costs = numbers(&mut reader, alloc, &ListKind::Cost, n, n)?;
    reader.end().map_err(Refusal::Fault)?;
    Ok(costs.into_vec())
}

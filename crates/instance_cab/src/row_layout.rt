ghost use Rattle.std.specs.Prelude.{◌≤◌, IfOk, IfErr};
ghost use Rattle.hub_spec.specs.Limits.{most_nodes};
ghost use Rattle.file_spec.specs.Options.{cab_rows, Options};
ghost use Rattle.file_spec.specs.Files.{HasContents};
ghost use Rattle.token_reader.specs.Refusals.{IsRefused};
ghost use Rattle.instance_cab.specs.ListedRows.{IsListing};

use crate::contents::parts;
use crate::pairs::matrices;
use crate::rows::{Listed, take_row};
use hub_model::{Parts, Refusal, Terms};
use std::alloc::Global;
use std::collections::BTreeMap;
use token_reader::Reader;

/// Reads an instance file in the row layout: its contents, or the first fault in the order of tokens.
///
/// The file has the number of nodes n and then rows. A row has two nodes, counted from 1, and the flow and the distance
/// from the first to the second. Rows come in any order, each pair at most once. Two different nodes need their row; a
/// node and itself have flow 0 without one. A flow is read in 10^-6 and a distance in 10^-3, both truncated. Distances
/// are divided by the option `divide` and rounded down. The distance from a node to itself is 0, whatever the file
/// says. All factors are 1.
pub fn read_rows(alloc: Global, bytes: &[u8], terms: &Terms) -> Result<Parts, Refusal>
    ensures contents { IfOk result (λ parts. HasContents cab_rows terms.now bytes.now parts) }
    ensures fault { IfErr result (IsRefused cab_rows terms.now bytes.now) }
{
    let (n, taken) = all_rows(alloc, bytes)?;
    let (flows, distances) = matrices(alloc, &taken, n, terms.divisor())?;
    Ok(parts(n, flows, distances))
}

// Reads the number of nodes, and what all rows say.
fn all_rows(alloc: Global, bytes: &[u8]) -> Result<(u32, BTreeMap<u32, Listed>), Refusal>
    ensures least { IfOk result (λ file. 1 ≤ file.0) }
    ensures most { IfOk result (λ file. file.0 ≤ most_nodes) }
    ensures listing { IfOk result (λ file. IsListing bytes.now file.0 file.1) }
    ensures fault { (o : Options) → IfErr result (IsRefused cab_rows o bytes.now) }
{
    let mut reader = Reader::over(bytes);
    let n = reader.size().map_err(Refusal::Fault)?;
    let mut taken = BTreeMap::new(alloc);
    while !reader.is_at_end() {
        take_row(&mut reader, n, &mut taken)?;
    }
    Ok((n, taken))
}

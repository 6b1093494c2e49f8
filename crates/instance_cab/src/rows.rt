ghost use Rattle.std.specs.Prelude.{◌≡◌, ◌*◌, ◌<◌, ◌≤◌, None, IfOk, IfErr, OnOk};
ghost use Rattle.hub_spec.specs.Limits.{most_nodes};
ghost use Rattle.hub_model.specs.Faults.{fault_of};
ghost use Rattle.token_reader.specs.Unread.{later};
ghost use Rattle.instance_cab.specs.ListedRows.{commodity_here, listed_here, IsRowLegal, IsRowFault, taken_at, TakesIn, IsRowRefused};

use hub_model::{InstanceFault, MOST_DISTANCE, MOST_FLOW, Refusal};
use std::alloc::AllocError;
use std::collections::BTreeMap;
use token_reader::Reader;

/// What a row says of its commodity: the flow in 10^-6, and the distance in 10^-3 as read.
#[derive(Clone, Copy)]
pub(crate) struct Listed {
    pub(crate) flow: u64,
    pub(crate) distance: u64,
}

/// Reads the next row and takes in what it says of its commodity.
pub(crate) fn take_row(
    reader: &mut Reader,
    n: u32,
    taken: &mut BTreeMap<u32, Listed>,
) -> Result<(), Refusal>
    requires least { 1 ≤ n }
    requires most { n ≤ most_nodes }
    ensures legal { OnOk result (IsRowLegal n reader.old) }
    ensures fresh { OnOk result (taken_at taken.old (commodity_here n reader.old) ≡ None) }
    ensures takes_in { OnOk result (TakesIn taken.old taken.new (commodity_here n reader.old) (listed_here reader.old)) }
    ensures moved { OnOk result (reader.new ≡ later 4 reader.old) }
    ensures fault { IfErr result (IsRowRefused n reader.old taken.old) }
{
    let (commodity, listed) = read_row(reader, n).map_err(Refusal::Fault)?;
    if taken.contains_key(&commodity) {
        return Err(Refusal::Fault(InstanceFault::Repeated {
            i: commodity / n,
            j: commodity % n,
        }));
    }
    taken.insert(commodity, listed).map_err(AllocError::from)?;
    Ok(())
}

// Reads the next row: the number of its commodity, and what it says of it.
fn read_row(reader: &mut Reader, n: u32) -> Result<(u32, Listed), InstanceFault>
    requires { n ≤ most_nodes }
    ensures commodity { IfOk result (λ row. row.0 ≡ commodity_here n reader.old) }
    ensures listed { IfOk result (λ row. row.1 ≡ listed_here reader.old) }
    ensures legal { OnOk result (IsRowLegal n reader.old) }
    ensures moved { OnOk result (reader.new ≡ later 4 reader.old) }
    ensures fault { IfErr result (λ f. IsRowFault n reader.old (fault_of f)) }
{
    let from = reader.index(n)?;
    let to = reader.index(n)?;
    let flow = reader.quantity(6, MOST_FLOW)?;
    let distance = reader.quantity(3, MOST_DISTANCE)?;
    Ok(((from - 1) * n + (to - 1), Listed { flow, distance }))
}

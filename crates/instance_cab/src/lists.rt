ghost use Rattle.std.specs.Prelude.{◌≡◌, ◌*◌, ◌≤◌, IfOk, IfErr, OnOk};
ghost use Rattle.hub_spec.specs.Limits.{most_nodes};
ghost use Rattle.token_reader.specs.Unread.{later, AreLegal, StoppedAt};
ghost use Rattle.instance_cab.specs.Matrices.{wanted_of, IsKind, kept_front};

use crate::distances::divided_list;
use crate::kinds::ListKind;
use hub_model::{Numbers, Refusal};
use std::alloc::Global;
use token_reader::Reader;

/// Reads so many numbers of a kind, and gives what is kept of each: of a distance, the divided one.
pub(crate) fn numbers(
    reader: &mut Reader,
    alloc: Global,
    kind: &ListKind,
    n: u32,
    count: u32,
) -> Result<Numbers, Refusal>
    requires kind { IsKind kind.now }
    requires size { n ≤ most_nodes }
    requires count { count ≤ n * n }
    ensures legal { OnOk result (AreLegal (wanted_of kind.now) count reader.old) }
    ensures kept { IfOk result (λ m. m ≡ kept_front kind.now n count reader.old) }
    ensures moved { OnOk result (reader.new ≡ later count reader.old) }
    ensures fault { IfErr result (StoppedAt (wanted_of kind.now) count reader.old) }
{
    let read = reader.quantities(alloc, count, kind.places(), kind.limit())?;
    match *kind {
        ListKind::Flow | ListKind::Cost => Ok(read),
        ListKind::Distance { divide } => Ok(divided_list(alloc, read.as_slice(), n, divide)?),
    }
}

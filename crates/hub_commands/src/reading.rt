//! The certificate of a file.

ghost use Rattle.std.specs.Prelude.{◌≡◌, IfOk, IfErr};
ghost use Rattle.hub_io.specs.Outside.{BeginsOnly};
ghost use Rattle.hub_sources.specs.Shelves.{FailsFor, StaysShelf};
ghost use Rattle.hub_sources.specs.Halts.{Halts};
ghost use Rattle.hub_sources.specs.Told.{LacksFile};
ghost use Rattle.hub_commands.specs.Judging.{IsNoFault, IsReadFrom};

use cert_checker::{Ending, MOST_CERTIFICATE_BYTES, Tested, read_tested};
use cert_format::Certificate;
use hub_io::{ReadEnd, Shelf, read_whole};
use hub_model::Instance;
use hub_sources::Halt;
use std::alloc::Global;
use std::thread::Threads;

/// Reads the certificate in the file of this name, and tests these conditions for the instance. Where its bytes are
/// refused, it returns the ending that refuses them.
pub fn read_certificate<R: Threads + Sync, S: Shelf>(
    rt: &R,
    alloc: Global,
    instance: &Instance,
    tested: Tested,
    name: &str,
    shelf: &mut S,
) -> Result<Result<Certificate, Ending>, Halt>
    ensures read { IfOk result (IsReadFrom instance.now tested (S.held shelf.old) name.now) }
    ensures halted { IfErr result (Halts IsNoFault
        (FailsFor S.held S.faults S.sound shelf.old shelf.new (LacksFile name.now))) }
    ensures stays { StaysShelf S.held S.faults S.sound shelf.old shelf.new }
    ensures begins { BeginsOnly (λ other. other ≡ name.now) (S.names shelf.old) (S.names shelf.new) }
{
    match read_whole(alloc, shelf, name, MOST_CERTIFICATE_BYTES as u64) {
        Ok(bytes) => Ok(read_tested(rt, alloc, instance, tested, &bytes)?),
        Err(ReadEnd::TooLong) => Ok(Err(Ending::TooLong)),
        Err(ReadEnd::ReadFault) => Err(Halt::Read),
        Err(ReadEnd::OutOfMemory) => Err(Halt::Memory),
    }
}

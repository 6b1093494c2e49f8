//! The command `check`: from the files of an instance and a certificate to a verdict.

ghost use Rattle.std.specs.Prelude.{◌≡◌, ◌⊎◌, IfOk, IfErr};
ghost use Rattle.hub_io.specs.Outside.{BeginsOnly};
ghost use Rattle.cert_checker.specs.Held.{IsVerdictOnHeld};
ghost use Rattle.cert_checker.specs.Shows.{verdict_of};
ghost use Rattle.hub_words.specs.Requests.{AreSources, AsksListed};
ghost use Rattle.hub_words.specs.Views.{source_of};
ghost use Rattle.hub_commands.specs.Checks.{JudgesFile, LacksCertificate};
ghost use Rattle.hub_sources.specs.Sources.{LacksSource};
ghost use Rattle.hub_sources.specs.Named.{IsFileOf};
ghost use Rattle.hub_sources.specs.Shelves.{FailsFor, StaysShelf};
ghost use Rattle.hub_sources.specs.Halts.{Halts, IsOfSource};
ghost use Rattle.hub_commands.specs.Judging.{IsNoFault};
ghost use Rattle.hub_sources.specs.Told.{LacksFile};

use cert_checker::{Ending, NoEnding, check_held};
use hub_io::Shelf;
use hub_model::Instance;
use hub_sources::{Halt, read_instance};
use hub_words::Source;
use std::alloc::Global;

/// Checks the certificate in this file against the instance that the source names, and returns how the check ends.
pub fn check<S: Shelf>(
    alloc: Global,
    source: &Source<'_>,
    certificate: &str,
    shelf: &mut S,
) -> Result<Ending, Halt>
    requires sources { AreSources (source_of source.now) }
    requires listed { AsksListed (source_of source.now) }
    ensures judged { IfOk result (λ e. JudgesFile (S.held shelf.old) (source_of source.now) certificate.now (verdict_of e)) }
    ensures halted { IfErr result (Halts (IsOfSource (S.held shelf.old) (source_of source.now))
        (FailsFor S.held S.faults S.sound shelf.old shelf.new
        (λ files. LacksSource files (source_of source.now) ⊎ LacksCertificate files (source_of source.now) certificate.now))) }
    ensures stays { StaysShelf S.held S.faults S.sound shelf.old shelf.new }
    ensures begins { BeginsOnly (λ name. IsFileOf (source_of source.now) name ⊎ (name ≡ certificate.now)) (S.names shelf.old) (S.names shelf.new) }
{
    let instance = read_instance(alloc, source, shelf)?;
    check_file(alloc, &instance, certificate, shelf)
}

/// Checks the certificate of this file, and returns how the check ends. Only a piece of the file is held at a time.
fn check_file<S: Shelf>(
    alloc: Global,
    instance: &Instance,
    certificate: &str,
    shelf: &mut S,
) -> Result<Ending, Halt>
    ensures judged { IfOk result (λ e. IsVerdictOnHeld instance.now (S.held shelf.old) certificate.now (verdict_of e)) }
    ensures halted { IfErr result (Halts IsNoFault
        (FailsFor S.held S.faults S.sound shelf.old shelf.new (LacksFile certificate.now))) }
    ensures stays { StaysShelf S.held S.faults S.sound shelf.old shelf.new }
    ensures begins { BeginsOnly (λ name. name ≡ certificate.now) (S.names shelf.old) (S.names shelf.new) }
{
    match check_held(alloc, shelf, certificate, instance) {
        Ok(ending) => Ok(ending),
        Err(NoEnding::ReadFault) => Err(Halt::Read),
        Err(NoEnding::OutOfMemory) => Err(Halt::Memory),
    }
}

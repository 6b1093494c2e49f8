//! The command `report`: from the files of an instance and a certificate to the costs of the certified network.

ghost use Rattle.std.specs.Prelude.{◌≡◌, ◌⊎◌, IfOk, IfErr};
ghost use Rattle.hub_io.specs.Outside.{BeginsOnly};
ghost use Rattle.hub_words.specs.Requests.{AreSources, AsksListed};
ghost use Rattle.hub_words.specs.Views.{source_of};
ghost use Rattle.hub_sources.specs.Sources.{LacksSource};
ghost use Rattle.hub_commands.specs.Checks.{LacksCertificate};
ghost use Rattle.hub_sources.specs.Named.{IsFileOf};
ghost use Rattle.hub_sources.specs.Shelves.{FailsFor, StaysShelf};
ghost use Rattle.hub_sources.specs.Halts.{Halts, IsOfSource};
ghost use Rattle.hub_commands.specs.Judging.{IsReport};

use crate::reading::read_certificate;
use cert_checker::{Ending, Tested};
use cert_format::Certificate;
use hub_io::Shelf;
use hub_model::Instance;
use hub_sources::{Halt, read_instance};
use hub_words::Source;
use std::alloc::Global;
use std::thread::Threads;

/// Reports on the certificate in this file for the instance that the source names. It returns both, or, where the bytes
/// do not certify, how the check ends.
pub fn report<R: Threads + Sync, S: Shelf>(
    rt: &R,
    alloc: Global,
    source: &Source<'_>,
    certificate: &str,
    shelf: &mut S,
) -> Result<Result<(Instance, Certificate), Ending>, Halt>
    requires sources { AreSources (source_of source.now) }
    requires listed { AsksListed (source_of source.now) }
    ensures reported { IfOk result (IsReport (S.held shelf.old) (source_of source.now) certificate.now) }
    ensures halted { IfErr result (Halts (IsOfSource (S.held shelf.old) (source_of source.now))
        (FailsFor S.held S.faults S.sound shelf.old shelf.new
        (λ files. LacksSource files (source_of source.now) ⊎ LacksCertificate files (source_of source.now) certificate.now))) }
    ensures stays { StaysShelf S.held S.faults S.sound shelf.old shelf.new }
    ensures begins { BeginsOnly (λ name. IsFileOf (source_of source.now) name ⊎ (name ≡ certificate.now)) (S.names shelf.old) (S.names shelf.new) }
{
    let instance = read_instance(alloc, source, shelf)?;
    match read_certificate(rt, alloc, &instance, Tested::Whole, certificate, shelf)? {
        Ok(certificate) => Ok(Ok((instance, certificate))),
        Err(ending) => Ok(Err(ending)),
    }
}

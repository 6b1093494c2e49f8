//! The commands that solve an instance: from its files to a finding.

ghost use Rattle.std.specs.Prelude.{◌≡◌, ◌⊎◌, IfOk, IfErr};
ghost use Rattle.hub_io.specs.Outside.{BeginsOnly};
ghost use Rattle.hub_spec.specs.Plans.{IsCandidateSet};
ghost use Rattle.hub_words.specs.Requests.{AreSources, AsksListed, IsSearch, IsSolving};
ghost use Rattle.hub_words.specs.Views.{search_seen, solving_of, source_of};
ghost use Rattle.hub_commands.specs.Instances.{LacksOlder};
ghost use Rattle.hub_sources.specs.Sources.{LacksSource};
ghost use Rattle.hub_commands.specs.Older.{IsNamedBy};
ghost use Rattle.hub_sources.specs.Shelves.{FailsFor, StaysShelf};
ghost use Rattle.hub_sources.specs.Halts.{Halts, IsOfSource};
ghost use Rattle.hub_commands.specs.Solving.{ComesTo};

use crate::closing::close;
use crate::preparing::{Prepared, prepare};
use crate::searching::find;
use assign_sub::lacking;
use cert_checker::Ending;
use cut_pool::Found;
use hub_io::{Gate, Shelf};
use hub_model::{HubSet, Instance};
use hub_sources::{Halt, read_instance};
use hub_words::Solving;
use std::alloc::{AllocError, Global};
use std::thread::Threads;

/// The result of a command that solves.
#[derive(Drop)]
pub enum Solved {
    /// The finding of the search for the instance.
    Found(Instance, Found),
    /// All candidates together are infeasible for the commodity from `i` to `j`, the first one.
    NoNetwork { i: u32, j: u32 },
    /// The older certificate is refused: its text, its size line or, for `resolve`, one of its cuts fails for the
    /// instance, with this ending.
    Refused(Ending),
}

/// Solves the instance that the source names, and returns it with the finding: by the given rule, by a warm start from
/// an older certificate, or by the search of `optimize`.
///
/// The instance is read first. Where all candidates together are infeasible for a commodity, no older certificate is
/// read.
pub fn solve<R: Threads + Sync, S: Shelf, G: Gate>(
    rt: &R,
    alloc: Global,
    asked: &Solving<'_>,
    shelf: &mut S,
    gate: &G,
) -> Result<Solved, Halt>
    requires sources { AreSources (source_of asked.now.source) }
    requires listed { AsksListed (source_of asked.now.source) }
    requires search { IsSearch (search_seen asked.now.search) }
    requires solving { IsSolving (solving_of asked.now) }
    ensures solved { IfOk result (ComesTo (S.held shelf.old) (solving_of asked.now)) }
    ensures halted { IfErr result (Halts (IsOfSource (S.held shelf.old) (source_of asked.now.source))
        (FailsFor S.held S.faults S.sound shelf.old shelf.new
        (λ files. LacksSource files (source_of asked.now.source) ⊎ LacksOlder files (solving_of asked.now)))) }
    ensures stays { StaysShelf S.held S.faults S.sound shelf.old shelf.new }
    ensures begins { BeginsOnly (IsNamedBy (solving_of asked.now)) (S.names shelf.old) (S.names shelf.new) }
{
    let instance = read_instance(alloc, &asked.source, shelf)?;
    if let Some((i, j)) = lacking(&instance, &all_candidates(alloc, &instance)?) {
        return Ok(Solved::NoNetwork { i, j });
    }
    let search = asked.search;
    match prepare(rt, alloc, &instance, asked.how, shelf)? {
        Prepared::Ruled(course) => {
            let found = find(rt, alloc, &instance, search, course, gate)?;
            Ok(Solved::Found(instance, found))
        }
        Prepared::Free { gap, older } => {
            let found = close(rt, alloc, &instance, search, gap, older)?;
            Ok(Solved::Found(instance, found))
        }
        Prepared::Refused(ending) => Ok(Solved::Refused(ending)),
    }
}

/// The set of all candidates.
fn all_candidates(alloc: Global, instance: &Instance) -> Result<HubSet, AllocError>
    ensures all { IfOk result (λ set. set ≡ instance.now.candidates) }
    ensures candidates { IfOk result (IsCandidateSet instance.now) }
{
    HubSet::of(alloc, instance.candidates())
}

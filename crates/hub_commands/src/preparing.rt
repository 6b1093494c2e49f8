//! The start of a search: its method, and the older certificate.

ghost use Rattle.std.specs.Prelude.{◌≡◌, Some, IfOk, IfErr};
ghost use Rattle.hub_io.specs.Outside.{BeginsOnly};
ghost use Rattle.hub_words.specs.Requests.{older_named};
ghost use Rattle.hub_words.specs.Views.{how_seen};
ghost use Rattle.hub_commands.specs.Older.{LacksNamed};
ghost use Rattle.hub_sources.specs.Shelves.{FailsFor, StaysShelf};
ghost use Rattle.hub_sources.specs.Halts.{Halts};
ghost use Rattle.hub_commands.specs.Judging.{IsNoFault};
ghost use Rattle.hub_commands.specs.Solving.{IsPrepared};

use crate::reading::read_certificate;
use crate::searching::Course;
use cert_checker::{Ending, Tested};
use cert_format::Certificate;
use hub_io::Shelf;
use hub_model::Instance;
use hub_sources::Halt;
use hub_words::How;
use std::alloc::Global;
use std::thread::Threads;
use warm_start::start_of;

/// The start of a search.
#[derive(Drop)]
pub enum Prepared {
    /// It follows a rule, in this course.
    Ruled(Course),
    /// It follows no rule, may leave this gap, and starts from the older certificate, or from nothing.
    Free {
        gap: u32,
        older: Option<Certificate>,
    },
    /// The older certificate is refused, for this reason.
    Refused(Ending),
}

/// Prepares the start of a search of the instance by this method. Where the search imports the cuts of the older
/// certificate, its size and its cuts are tested for this instance, else only its size.
pub fn prepare<R: Threads + Sync, S: Shelf>(
    rt: &R,
    alloc: Global,
    instance: &Instance,
    how: How<'_>,
    shelf: &mut S,
) -> Result<Prepared, Halt>
    ensures prepared { IfOk result (IsPrepared (S.held shelf.old) instance.now (how_seen how.entry)) }
    ensures halted { IfErr result (Halts IsNoFault
        (FailsFor S.held S.faults S.sound shelf.old shelf.new (LacksNamed (older_named (how_seen how.entry))))) }
    ensures stays { StaysShelf S.held S.faults S.sound shelf.old shelf.new }
    ensures begins { BeginsOnly (λ name. older_named (how_seen how.entry) ≡ Some name) (S.names shelf.old) (S.names shelf.new) }
{
    match how {
        How::Follow(rule) => Ok(Prepared::Ruled(Course::Cold(rule))),
        How::Again(name) => {
            match read_certificate(rt, alloc, instance, Tested::Cuts, name, shelf)? {
                Ok(older) => Ok(Prepared::Ruled(Course::Warm(start_of(older)))),
                Err(ending) => Ok(Prepared::Refused(ending)),
            }
        }
        How::Freely { gap, from } => {
            let Some(name) = from else {
                return Ok(Prepared::Free { gap, older: None });
            };
            match read_certificate(rt, alloc, instance, Tested::Size, name, shelf)? {
                Ok(older) => Ok(Prepared::Free {
                    gap,
                    older: Some(older),
                }),
                Err(ending) => Ok(Prepared::Refused(ending)),
            }
        }
    }
}

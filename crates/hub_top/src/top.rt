//! The top call.

ghost use Rattle.std.specs.Prelude.{◌≡◌, ◌⊎◌, IfOk, IfSome, None, Some};
ghost use Rattle.hub_io.specs.Outside.{Rose, BeginsOnly};
ghost use Rattle.hub_words.specs.Words as spec;
ghost use Rattle.hub_words.specs.Requests.{AreSources, AsksListed, IsMaking, IsSearch, IsSolving, instance, making_of, search_of, solved};
ghost use Rattle.hub_words.specs.Views.{request_of, texts};
ghost use Rattle.hub_top.specs.Views.{CanBeWritten, came_to, ended};
ghost use Rattle.hub_top.specs.Outcomes.{Outcome, MayComeTo, ShelfFails, Quiet, Written};
ghost use Rattle.hub_top.specs.Meanings.{Means};
ghost use Rattle.hub_top.specs.Named.{AreNaming, NameNone, Names};
ghost use Rattle.hub_top.specs.Completeness.{Completeness};
ghost use Rattle.hub_top.specs.Headline.{Headline};

use crate::Status;
use crate::answers::Answer;
use crate::outcomes::{Settled, write};
use hub_commands::{Solved, check, demonstrate, report, solve};
use hub_io::{Gate, Shelf, Sink};
use hub_make::instance_text;
use hub_sources::Halt;
use hub_words::{Command, asked};
use std::alloc::Global;
use std::thread::Threads;

/// Runs the command that the arguments give, the first of which is the program's name.
///
/// It reads and decides first, then reserves the memory for its output, and then writes. The answer of the command goes
/// to `out`, or the reason why there is none to `err`. Arguments that are no command, `make` and `demo` read no file;
/// all others read only files that the arguments name.
///
/// The runtime runs the workers of a search and of a certificate's text; the gate is for the workers of a search. No
/// clause depends on them or on the number of workers, so the output is the same whatever they are. With Pareto-optimal
/// cuts `solve` writes the third version of a certificate, in which each such cut has its mark. Without them it writes
/// the first or the second, with no mark.
///
/// - `ends`: the run has an outcome that the arguments, the files and the shelf's faults allow. It was written, with
///   its status. Where a sink failed, it took a prefix of its text, and nothing further.
/// - `means`: what each status says of the arguments, the files, the faults, and the bytes that `out` took.
/// - `complete`: the status of each command where nothing failed, unless memory ran out. Arguments that are no command
///   end with 3, a fault of the instance with 4. `solve`, `optimize` and `resolve` end with 8 where all candidates
///   together are infeasible for a commodity. Otherwise `solve` and `demo` end with 0 or 1 as the search rule says, and
///   with 0 where enough nodes are allowed. So does `resolve` where it accepts the older certificate, and else it ends
///   with 2. It accepts each one that certifies for other fixed costs or another number of hubs. `optimize` ends with 0
///   or 1, and with 0 where no gap and enough nodes are allowed. It ends with 2 where the older certificate is not one
///   of its size. `check` ends with 0, 1 or 2 by the verdict on the certificate's bytes, `report` with 0 or 2 by it,
///   and `make` with 0.
/// - `headline`: the headline, whose three sentences are in `specs/Headline.antt` with their meaning.
pub fn run<R: Threads + Sync, S: Shelf, O: Sink, E: Sink, G: Gate>(
    rt: &R,
    alloc: Global,
    words: &[String],
    shelf: &mut S,
    out: &mut O,
    err: &mut E,
    gate: &G,
) -> Status
    ensures ends { (came : Outcome)
        × MayComeTo (spec.asked (texts words.now)) (S.held shelf.old) (ShelfFails S.held S.faults S.sound shelf.old shelf.new) came
        × Written O.taken O.faults E.taken E.faults out.old out.new err.old err.new result came }
    ensures means { Means (spec.asked (texts words.now)) (S.held shelf.old)
        (ShelfFails S.held S.faults S.sound shelf.old shelf.new) (O.taken out.old) (O.taken out.new) (Rose (O.faults out.old) (O.faults out.new) ⊎ Rose (E.faults err.old) (E.faults err.new)) result }
    ensures complete { Completeness (spec.asked (texts words.now)) (S.held shelf.old)
        (Quiet S.faults shelf.old shelf.new O.faults out.old out.new E.faults err.old err.new) result }
    ensures headline { Headline (spec.asked (texts words.now)) (S.held shelf.old) (O.taken out.old) (O.taken out.new)
        (Quiet S.faults shelf.old shelf.new O.faults out.old out.new E.faults err.old err.new) result }
    ensures same { S.held shelf.new ≡ S.held shelf.old }
    ensures begins { BeginsOnly (AreNaming (spec.asked (texts words.now))) (S.names shelf.old) (S.names shelf.new) }
    ensures untouched { NameNone (spec.asked (texts words.now)) → shelf.new ≡ shelf.old }
{
    let settled = settle(rt, alloc, words, shelf, gate);
    write(rt, alloc, &settled, out, err)
}

/// The outcome of arguments and files. It writes nothing.
fn settle<R: Threads + Sync, S: Shelf, G: Gate>(
    rt: &R,
    alloc: Global,
    words: &[String],
    shelf: &mut S,
    gate: &G,
) -> Settled
    ensures may { MayComeTo (spec.asked (texts words.now)) (S.held shelf.old)
        (ShelfFails S.held S.faults S.sound shelf.old shelf.new) (came_to result) }
    ensures writable { CanBeWritten result }
    ensures same { S.held shelf.new ≡ S.held shelf.old }
    ensures begins { BeginsOnly (AreNaming (spec.asked (texts words.now))) (S.names shelf.old) (S.names shelf.new) }
    ensures untouched { NameNone (spec.asked (texts words.now)) → shelf.new ≡ shelf.old }
{
    match asked(alloc, words) {
        Err(_) => Settled::Halted(Halt::Memory),
        Ok(None) => Settled::Usage,
        Ok(Some(command)) => match answer(rt, alloc, &command, shelf, gate) {
            Ok(settled) => settled,
            Err(halt) => Settled::Halted(halt),
        },
    }
}

/// The outcome of the command, or why it has no answer.
fn answer<R: Threads + Sync, S: Shelf, G: Gate>(
    rt: &R,
    alloc: Global,
    command: &Command<'_>,
    shelf: &mut S,
    gate: &G,
) -> Result<Settled, Halt>
    requires sources { IfSome (instance (request_of command.now)) AreSources }
    requires searches { IfSome (search_of (request_of command.now)) IsSearch }
    requires listed { IfSome (instance (request_of command.now)) AsksListed }
    requires solvings { IfSome (solved (request_of command.now)) IsSolving }
    requires makings { IfSome (making_of (request_of command.now)) IsMaking }
    ensures may { MayComeTo (Some (request_of command.now)) (S.held shelf.old)
        (ShelfFails S.held S.faults S.sound shelf.old shelf.new) (ended result) }
    ensures writable { IfOk result CanBeWritten }
    ensures same { S.held shelf.new ≡ S.held shelf.old }
    ensures begins { BeginsOnly (Names (request_of command.now)) (S.names shelf.old) (S.names shelf.new) }
    ensures untouched { instance (request_of command.now) ≡ None → shelf.new ≡ shelf.old }
{
    match command {
        Command::Solve(solving) => match solve(rt, alloc, solving, shelf, gate)? {
            Solved::Found(instance, found) => Ok(Settled::Found(instance, found, solving.search)),
            Solved::NoNetwork { i, j } => Ok(Settled::NoNetwork { i, j }),
            Solved::Refused(ending) => Ok(Settled::Answered(Answer::Judged(ending))),
        },
        Command::Check(source, certificate) => {
            let ending = check(alloc, source, certificate, shelf)?;
            Ok(Settled::Answered(Answer::Judged(ending)))
        }
        Command::Report(source, certificate) => {
            match report(rt, alloc, source, certificate, shelf)? {
                Ok((instance, certificate)) => {
                    Ok(Settled::Answered(Answer::Reported(instance, certificate)))
                }
                Err(ending) => Ok(Settled::Answered(Answer::Judged(ending))),
            }
        }
        Command::Make(making) => {
            let text = instance_text(alloc, making.seed, making.size)?;
            Ok(Settled::Answered(Answer::Made(text)))
        }
        Command::Demo(making, search) => {
            let found = demonstrate(rt, alloc, *making, *search, gate)?;
            Ok(Settled::Answered(Answer::Demonstrated(making.size, found)))
        }
    }
}

//! The check of a file on a shelf.

ghost use Rattle.std.specs.Prelude.{◌≡◌, ℕ, ◌++◌, ◌<◌, ◌≤◌, List, [], length, take, IfOk, IsSome};
ghost use Rattle.std.specs.Io.KnownBytes.{Consumes, IsAtEnd};
ghost use Rattle.hub_io.specs.Outside.{LeavesRest, Rose, TellsOf, with_name};
ghost use Rattle.cert_spec.specs.Verdicts.{certificate_limit};
ghost use Rattle.cert_checker.specs.Shows.{verdict_of};
ghost use Rattle.cert_checker.specs.Fed.{HasFed};
ghost use Rattle.cert_checker.specs.Held.{IsVerdictOnHeld, EndsOver};

use crate::endings::NoEnding;
use crate::streams::Stream;
use crate::tested::MOST_CERTIFICATE_BYTES;
use crate::verdicts::Ending;
use hub_io::Shelf;
use hub_model::Instance;
use std::alloc::Global;

// How many bytes are read at once, at most.
const PIECE: usize = 65_536;

// How many bytes are read in all, at most: one more than a certificate may have.
const MOST_READ: usize = MOST_CERTIFICATE_BYTES + 1;

/// Checks the file of this name against the instance. It reads the file to its end, also after a failure, but no more than
/// 2^30 + 1 bytes.
///
/// It allocates one path of a tree, and the sums of each cut.
#[tactic(auto, using(crate::proofs::Reading::verdict_over, crate::proofs::Reading::rest_over, crate::proofs::Reading::told_first))]
pub fn check_held<S: Shelf>(
    alloc: Global,
    shelf: &mut S,
    name: &str,
    instance: &Instance,
) -> Result<Ending, NoEnding>
    ensures judged { IfOk result (λ e. IsVerdictOnHeld instance.now (S.held shelf.old) name.now (verdict_of e)) }
    ensures rest { result ≡ Ok Ending.TooLong → LeavesRest (S.held shelf.old) (S.left shelf.new) name.now certificate_limit }
    ensures fault { result ≡ Err NoEnding.ReadFault → Rose (S.faults shelf.old) (S.faults shelf.new) }
    ensures sound { S.sound shelf.old → TellsOf (S.held shelf.old) name.now → result ≡ Err NoEnding.ReadFault → ⊥ }
    ensures later { S.faults shelf.old ≤ S.faults shelf.new }
    ensures same { S.held shelf.new ≡ S.held shelf.old }
    ensures begun { S.names shelf.new ≡ with_name name.now (S.names shelf.old) }
    ensures stays_sound { S.sound shelf.old → S.sound shelf.new }
{
    // What is known of an instance comes with its size.
    let nodes = instance.size();
    prove!(nodes > 0);
    shelf.begin(name)?;
    let stream = Stream::new(alloc, instance)?;
    feed_all(alloc, shelf, stream)
}

// Feeds what is left of the file that was begun, and ends the check.
fn feed_all<S: Shelf>(alloc: Global, shelf: &mut S, stream: Stream<'_>) -> Result<Ending, NoEnding>
    requires fed { HasFed [] stream }
    ensures ended { IfOk result (λ e.
        EndsOver stream.entry.checks.instance.now (S.left shelf.old) (S.left shelf.new) (verdict_of e)) }
    ensures fault { result ≡ Err NoEnding.ReadFault → Rose (S.faults shelf.old) (S.faults shelf.new) }
    ensures sound { S.sound shelf.old → IsSome (S.left shelf.old) → result ≡ Err NoEnding.ReadFault → ⊥ }
    ensures later { S.faults shelf.old ≤ S.faults shelf.new }
    ensures same { S.held shelf.new ≡ S.held shelf.old }
    ensures same_names { S.names shelf.new ≡ S.names shelf.old }
    ensures stays_sound { S.sound shelf.old → S.sound shelf.new }
{
    let mut stream = stream;
    let mut piece = [0u8; PIECE];
    let mut room = MOST_READ;
    while room > 0 {
        let most = room.min(PIECE);
        let (next, count) = feed_next(alloc, shelf, stream, &mut piece[..most])?;
        stream = next;
        if count == 0 {
            return Ok(stream.finish());
        }
        room -= count;
    }
    Ok(Ending::TooLong)
}

// Reads on as far as the piece has room, and feeds what was read, which is nothing at the end of the file.
fn feed_next<'a, S: Shelf>(
    alloc: Global,
    shelf: &mut S,
    stream: Stream<'a>,
    piece: &mut [u8],
) -> Result<(Stream<'a>, usize), NoEnding>
    requires room { 0 < length piece.old }
    requires fed { (bytes : List ℕ) × HasFed bytes stream }
    ensures within { IfOk result (λ r. r.1 ≤ length piece.new) }
    ensures long { length piece.new ≡ length piece.old }
    ensures fed { (bytes : List ℕ) → HasFed bytes stream.entry → IfOk result (λ r. HasFed (bytes ++ take r.1 piece.new) r.0) }
    ensures read { IfOk result (λ r. Consumes (S.left shelf.old) (S.left shelf.new) (take r.1 piece.new)) }
    ensures end { IfOk result (λ r. r.1 ≡ 0 → IsAtEnd (S.left shelf.new)) }
    ensures instance { IfOk result (λ r. r.0.checks.instance ≡ stream.entry.checks.instance) }
    ensures fault { result ≡ Err NoEnding.ReadFault → Rose (S.faults shelf.old) (S.faults shelf.new) }
    ensures sound { S.sound shelf.old → IsSome (S.left shelf.old) → result ≡ Err NoEnding.ReadFault → ⊥ }
    ensures later { S.faults shelf.old ≤ S.faults shelf.new }
    ensures same { S.held shelf.new ≡ S.held shelf.old }
    ensures same_names { S.names shelf.new ≡ S.names shelf.old }
    ensures stays_sound { S.sound shelf.old → S.sound shelf.new }
{
    match shelf.read(piece) {
        Err(_) => Err(NoEnding::ReadFault),
        Ok(count) => {
            let stream = stream.feed(alloc, &piece[..count])?;
            Ok((stream, count))
        }
    }
}

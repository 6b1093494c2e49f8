//! The verdict on a certificate's bytes: its status and its line.

ghost use Rattle.std.specs.Prelude.{◌≡◌};
ghost use Rattle.hub_io.specs.Outside.{Puts};
ghost use Rattle.cert_checker.specs.Shows.{verdict_of};
ghost use Rattle.hub_commands.specs.Lines.{verdict_text, optimal_line, bounds_line, no_line, too_long_line};
ghost use Rattle.hub_commands.specs.VerdictStatuses.{verdict_status};

use crate::Status;
use cert_checker::Ending;
use dec_text::{Piece, put_line};
use hub_io::{Failed, Sink};

/// The status of a check with this ending.
pub fn status_of_ending(ending: &Ending) -> Status
    ensures { result ≡ verdict_status (verdict_of ending.now) }
{
    match ending {
        Ending::Optimal { .. } => Status::Done,
        Ending::Bounds { .. } => Status::Stopped,
        Ending::No { .. } => Status::No,
        Ending::BadLine { .. } | Ending::Ended { .. } | Ending::TooLong => Status::No,
    }
}

/// Puts the line of the verdict. Costs have 12 decimals.
pub fn put_ending<K: Sink>(ending: &Ending, sink: &mut K) -> Result<(), Failed>
    ensures { Puts K.taken K.faults sink.old sink.new result (verdict_text (verdict_of ending.now)) }
{
    match *ending {
        Ending::Optimal { cost } => put_optimal(cost, sink),
        Ending::Bounds { bound, cost } => put_bounds(bound, cost, sink),
        Ending::No { kind, line } => put_no(kind.name().as_bytes(), line, sink),
        Ending::BadLine { line } => put_no(b"BadLine", line, sink),
        Ending::Ended { line } => put_no(b"Ended", line, sink),
        Ending::TooLong => put_too_long(sink),
    }
}

#[tactic(auto, unfolding(crate::specs::Lines::optimal_line))]
fn put_optimal<K: Sink>(cost: u128, sink: &mut K) -> Result<(), Failed>
    ensures { Puts K.taken K.faults sink.old sink.new result (optimal_line cost) }
{
    put_line(
        &[
            Piece::Text(b"optimal "),
            Piece::Fixed {
                value: cost,
                places: 12,
            },
            Piece::Text(b"\n"),
        ],
        sink,
    )
}

#[tactic(auto, unfolding(crate::specs::Lines::bounds_line))]
fn put_bounds<K: Sink>(bound: u128, cost: u128, sink: &mut K) -> Result<(), Failed>
    ensures { Puts K.taken K.faults sink.old sink.new result (bounds_line bound cost) }
{
    put_line(
        &[
            Piece::Text(b"bounds "),
            Piece::Fixed {
                value: bound,
                places: 12,
            },
            Piece::Text(b" "),
            Piece::Fixed {
                value: cost,
                places: 12,
            },
            Piece::Text(b"\n"),
        ],
        sink,
    )
}

#[tactic(auto, unfolding(crate::specs::Lines::no_line))]
fn put_no<K: Sink>(words: &[u8], line: u64, sink: &mut K) -> Result<(), Failed>
    ensures { Puts K.taken K.faults sink.old sink.new result (no_line words.now line) }
{
    put_line(
        &[
            Piece::Text(b"no "),
            Piece::Text(words),
            Piece::Text(b" "),
            Piece::Count(line as u128),
            Piece::Text(b"\n"),
        ],
        sink,
    )
}

#[tactic(auto, unfolding(crate::specs::Lines::too_long_line))]
fn put_too_long<K: Sink>(sink: &mut K) -> Result<(), Failed>
    ensures { Puts K.taken K.faults sink.old sink.new result too_long_line }
{
    sink.put(b"no TooLong\n")
}

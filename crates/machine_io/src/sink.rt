//! A stream of the machine as a sink.

ghost use Rattle.std.specs.Prelude.{◌≡◌};
ghost use Rattle.std.specs.Bool.{MatchBool};
ghost use Rattle.std.specs.Io.KnownBytes.{Appends};
ghost use Rattle.hub_io.specs.Outside.{AppendsFront};

use hub_io::{Failed, Sink};
use std::io::{ErrorKind, Write};

/// A stream that bytes are written to. Contracts know what it took where the stream tells; those of the machine do not.
#[derive(Drop)]
pub struct StreamSink<W: Write + Drop> {
    stream: W,
    faults: u64,
}

impl<W: Write + Drop> StreamSink<W> {
    /// A sink over the stream, with no failed put.
    pub fn new(stream: W) -> Self
        ensures taken { W.contents result.stream ≡ W.contents stream }
        ensures faults { result.faults ≡ 0 }
    {
        StreamSink { stream, faults: 0 }
    }

    /// Gives the stream back.
    pub fn into_stream(self) -> W
        ensures { W.contents result ≡ W.contents self.stream }
    {
        self.stream
    }
}

impl<W: Write + Drop> Sink for StreamSink<W> {
    ghost taken = { λ s. W.contents s.stream };

    ghost faults = { λ s. s.faults };

    fn put(&mut self, piece: &[u8]) -> Result<(), Failed> {
        if write_whole(&mut self.stream, piece) {
            return Ok(());
        }
        self.faults = self.faults.saturating_add(1);
        Err(Failed)
    }
}

/// Writes the whole piece. False says that the stream failed and took a prefix of it. A stream that takes nothing of a
/// piece has failed; an interrupted write is tried again.
fn write_whole<W: Write>(stream: &mut W, piece: &[u8]) -> bool
    ensures { MatchBool result (Appends (W.contents stream.old) (W.contents stream.new) piece.now)
        (AppendsFront (W.contents stream.old) (W.contents stream.new) piece.now) }
{
    let mut rest = piece;
    for _ in 0..u64::MAX {
        if rest.is_empty() {
            return true;
        }
        match stream.write(rest) {
            Ok(0) => return false,
            Ok(count) => rest = &rest[count..],
            Err(fault) if fault.kind() == ErrorKind::Interrupted => {}
            Err(_) => return false,
        }
    }
    false
}

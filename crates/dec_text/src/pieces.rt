ghost use Rattle.std.specs.Prelude.{List, ℕ};
ghost use Rattle.hub_io.specs.Outside.{Puts, PutsThrough};
ghost use Rattle.dec_text.specs.Lines.{piece_text, line_of};

use crate::numbers::{put_count, put_with_point};
use hub_io::{Buffer, Failed, Sink};

/// A part of a line.
#[derive(Clone, Copy)]
pub enum Piece<'a> {
    /// The bytes themselves.
    Text(&'a [u8]),
    /// A number in decimal digits, with a minus where it is negative.
    Number(i128),
    /// A number in decimal digits.
    Count(u128),
    /// A number in units of 10^-places: its whole part, a point, and exactly `places` decimals. Where `places` is 0,
    /// one 0 follows the point.
    Fixed { value: u128, places: u32 },
}

/// Puts the pieces one after another, as one put on the sink where they have at most 8192 bytes together.
pub fn put_line<K: Sink>(pieces: &[Piece<'_>], sink: &mut K) -> Result<(), Failed>
    ensures { Puts K.taken K.faults sink.old sink.new result (line_of pieces.now) }
{
    let mut buffer = Buffer::new();
    put_pieces(pieces, &mut buffer, sink)?;
    buffer.finish(sink)
}

/// Puts the pieces one after another through a buffer, which the caller finishes.
pub fn put_pieces<K: Sink>(
    pieces: &[Piece<'_>],
    buffer: &mut Buffer,
    sink: &mut K,
) -> Result<(), Failed>
    ensures { PutsThrough K.taken K.faults sink.old sink.new buffer.old buffer.new result (line_of pieces.now) }
{
    for piece in pieces {
        put_piece(piece, buffer, sink)?;
    }
    Ok(())
}

fn put_piece<K: Sink>(piece: &Piece<'_>, buffer: &mut Buffer, sink: &mut K) -> Result<(), Failed>
    ensures { PutsThrough K.taken K.faults sink.old sink.new buffer.old buffer.new result (piece_text piece.now) }
{
    match *piece {
        Piece::Text(bytes) => buffer.put(bytes, sink),
        Piece::Number(value) => buffer.put(itoa::Buffer::new().format(value).as_bytes(), sink),
        Piece::Count(value) => put_count(value, buffer, sink),
        Piece::Fixed { value, places } => put_with_point(value, places, buffer, sink),
    }
}

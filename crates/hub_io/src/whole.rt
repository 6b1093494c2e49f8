//! A whole file, up to a limit.
ghost use Rattle.std.specs.Prelude.{◌≡◌, ◌≤◌, length, IfOk};
ghost use Rattle.hub_io.specs.Outside.{Holds, HoldsMore, LeavesRest, Rose, TellsOf, with_name};

use crate::Shelf;
use std::alloc::Global;

// The most bytes that one call reads.
const PIECE: usize = 4096;

/// Why a file was not read whole.
#[derive(Clone, Copy, Debug, PartialEq, Eq)]
pub enum ReadEnd {
    /// A call on the shelf failed.
    ReadFault,
    /// The file has more bytes than the limit.
    TooLong,
    /// The allocation for the bytes failed.
    OutOfMemory,
}

/// The bytes of the file of that name, at most `limit` of them.
///
/// No other file is begun. Without a fault of the shelf, and with enough memory, the result is `TooLong` exactly where
/// the file has more than `limit` bytes.
pub fn read_whole<S: Shelf>(
    alloc: Global,
    shelf: &mut S,
    name: &str,
    limit: u64,
) -> Result<Vec<u8>, ReadEnd>
    ensures whole { IfOk result (λ bytes. Holds (S.held shelf.old) name.now bytes.items) }
    ensures within { IfOk result (λ bytes. length bytes.items ≤ limit) }
    ensures too_long { result ≡ Err ReadEnd.TooLong → HoldsMore (S.held shelf.old) name.now limit }
    ensures rest { result ≡ Err ReadEnd.TooLong → LeavesRest (S.held shelf.old) (S.left shelf.new) name.now limit }
    ensures fault { result ≡ Err ReadEnd.ReadFault → Rose (S.faults shelf.old) (S.faults shelf.new) }
    ensures sound { S.sound shelf.old → TellsOf (S.held shelf.old) name.now → result ≡ Err ReadEnd.ReadFault → ⊥ }
    ensures later { S.faults shelf.old ≤ S.faults shelf.new }
    ensures same { S.held shelf.new ≡ S.held shelf.old }
    ensures begun { S.names shelf.new ≡ with_name name.now (S.names shelf.old) }
    ensures stays_sound { S.sound shelf.old → S.sound shelf.new }
{
    if shelf.begin(name).is_err() {
        return Err(ReadEnd::ReadFault);
    }
    let mut bytes = Vec::new(alloc);
    let mut buffer = [0u8; PIECE];
    while (bytes.len() as u64) <= limit {
        let room = limit - bytes.len() as u64;
        let most = if room < PIECE as u64 {
            room as usize + 1
        } else {
            PIECE
        };
        match shelf.read(&mut buffer[..most]) {
            Err(_) => return Err(ReadEnd::ReadFault),
            Ok(0) => return Ok(bytes),
            Ok(count) => {
                if bytes.extend_from_slice(&buffer[..count]).is_err() {
                    return Err(ReadEnd::OutOfMemory);
                }
            }
        }
    }
    Err(ReadEnd::TooLong)
}

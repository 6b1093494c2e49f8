//! Cases of `machine_io`: a file of the folder `data/` and a missing one, each read whole, and a stream that takes two
//! bytes at a time and seven in all.

use hub_io::{ReadEnd, Shelf, Sink, read_whole};
use machine_io::{DiskShelf, StreamSink};
use std::alloc::Global;
use std::io::{self, Write};

/// Takes two bytes at a time, seven in all, and then nothing.
#[derive(Drop)]
struct Narrow {
    taken: [u8; 8],
    count: usize,
}

impl Write for Narrow {
    fn write(&mut self, piece: &[u8]) -> io::Result<usize> {
        let room = 7usize.saturating_sub(self.count);
        let count = piece.len().min(2).min(room);
        for (slot, byte) in self
            .taken
            .iter_mut()
            .skip(self.count)
            .zip(piece.iter().take(count))
        {
            *slot = *byte;
        }
        self.count = self.count.saturating_add(count);
        Ok(count)
    }

    fn flush(&mut self) -> io::Result<()> {
        Ok(())
    }
}

/// Prints the results of reading and putting.
pub(crate) fn tell(rt: &HostRuntime) -> io::Result<()> {
    let mut shelf = DiskShelf::new(rt);
    let mut into = [0u8; 4];
    println!(rt;
        "a read before any file: {}",
        how(shelf.read(&mut into).is_ok())
    )?;
    for (name, limit) in [("held.txt", 5), ("held.txt", 4), ("missing.txt", 5)] {
        println!(rt;
            "{name}, at most {limit} bytes: {}",
            read(rt.alloc(), &mut shelf, name, limit)
        )?;
    }
    let mut sink = StreamSink::new(Narrow {
        taken: [0; 8],
        count: 0,
    });
    for piece in ["", "abcde", "fgh"] {
        println!(rt;
            "a put of {} bytes: {}",
            piece.len(),
            how(sink.put(piece.as_bytes()).is_ok())
        )?;
    }
    println!(rt; "taken: {:?}", sink.into_stream().taken)
}

/// How a call ended.
fn how(is_well: bool) -> &'static str {
    if is_well { "done" } else { "failed" }
}

/// What reading the file whole came to.
fn read<S: Shelf>(alloc: Global, shelf: &mut S, name: &str, limit: u64) -> &'static str {
    match read_whole(alloc, shelf, name, limit) {
        Ok(bytes) if bytes.as_slice() == b"1;0,0".as_slice() => "its five bytes",
        Ok(_) => "other bytes",
        Err(ReadEnd::TooLong) => "too long",
        Err(ReadEnd::ReadFault) => "not read",
        Err(ReadEnd::OutOfMemory) => "out of memory",
    }
}

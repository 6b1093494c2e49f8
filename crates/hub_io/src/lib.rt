//! The outside as traits: files that are read, streams that are written, gates that workers pass.
//!
//! - [`Shelf`] gives the bytes of named files, and [`Sink`] takes bytes. Either may tell in contracts what
//!   it holds or took, and each counts its faults: so a contract can say what was read and what was taken,
//!   and that nothing failed without a cause outside.
//! - [`read_whole`] reads a file up to a limit.
//! - [`Buffer`] joins many small puts into few large ones.
//! - [`Gate`] is where a worker passes before each block of its work. [`OpenGate`] lets all pass.
//! - [`MemShelf`] with its [`MemFile`]s, and [`MemSink`], are in memory, and fail on demand:
//!   at the calls of a list, and at each [`Partial`] put. A `MemShelf` gives short reads of a list.
#![tactic(auto)]

// Where files are read.
mod shelf;
mod whole;

// Where texts are put.
mod sink;

// Many small puts joined into few.
mod buffer;

// Where workers pass.
mod gate;

// In memory.
mod mem_shelf;
mod mem_sink;

pub use buffer::Buffer;
pub use gate::{Gate, OpenGate};
pub use mem_shelf::{MemFile, MemShelf};
pub use mem_sink::{MemSink, Partial};
pub use shelf::{Failed, Shelf};
pub use sink::Sink;
pub use whole::{ReadEnd, read_whole};

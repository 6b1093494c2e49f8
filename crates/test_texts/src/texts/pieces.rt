//! Pieces of a line, and how bytes are printed.

use std::alloc::{AllocError, Global};
use test_lines::{Wrong, bytes_of};

/// The bytes of a word: those of its text, or of `TEXT*COUNT` that text so many times.
pub(crate) fn piece(alloc: Global, word: &str) -> Result<Vec<u8>, Wrong> {
    match word.split_once('*') {
        Some((text, count)) => Ok(repeated(alloc, text.as_bytes(), count.parse()?)?),
        None => Ok(bytes_of(alloc, word)?),
    }
}

fn repeated(alloc: Global, text: &[u8], count: usize) -> Result<Vec<u8>, AllocError> {
    let mut bytes = Vec::new(alloc);
    for _ in 0..count {
        bytes.extend_from_slice(text)?;
    }
    Ok(bytes)
}

// More bytes than that are printed by their number, the first and the last.
const SHORT: usize = 64;

/// Bytes as they are printed.
pub(crate) fn shown(alloc: Global, bytes: &[u8]) -> Result<String, AllocError> {
    let count = bytes.len();
    if count <= SHORT {
        return format!(in alloc; "\"{}\"", bytes.escape_ascii());
    }
    let front = &bytes[..3];
    let back = &bytes[count - 4..];
    format!(in alloc;
        "{count} bytes \"{}\"..\"{}\"",
        front.escape_ascii(),
        back.escape_ascii()
    )
}

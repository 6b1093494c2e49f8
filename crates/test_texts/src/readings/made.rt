//! The texts of made-up instances.

use hub_make::instance_text;
use std::alloc::{AllocError, Global};
use test_lines::Wrong;

/// The text of a seed and a number of nodes.
pub(crate) fn text(alloc: Global, seed: &str, nodes: &str) -> Result<String, Wrong> {
    let (seed, nodes): (u32, u32) = (seed.parse()?, nodes.parse()?);
    if seed > 1_000_000 || nodes < 1 || nodes > 200 {
        return Err(Wrong::NoCase);
    }
    let text = instance_text(alloc, seed, nodes)?;
    Ok(shown(alloc, &text)?)
}

// Longer texts are printed by their length, their checksum and their ends.
const SHORT: usize = 100;

fn shown(alloc: Global, text: &[u8]) -> Result<String, AllocError> {
    let count = text.len();
    if count <= SHORT {
        return format!(in alloc; "\"{}\"", text.escape_ascii());
    }
    let sum = adler32(text);
    let front = &text[..10];
    let back = &text[count - 29..];
    format!(in alloc;
        "{count} bytes, {sum}, \"{}\"..\"{}\"",
        front.escape_ascii(),
        back.escape_ascii()
    )
}

fn adler32(bytes: &[u8]) -> u32 {
    let (mut sum, mut sums) = (1_u32, 0_u32);
    for byte in bytes {
        sum = sum.wrapping_add(u32::from(*byte)) % 65_521;
        sums = sums.wrapping_add(sum) % 65_521;
    }
    sums.wrapping_mul(65_536).wrapping_add(sum)
}

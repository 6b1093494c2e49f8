//! Numbers and tokens that are read.

use dec_text::{Tokens, read_count, read_decimal};
use std::alloc::{AllocError, Global};
use test_lines::{Wrong, bytes_of};

/// What a token writes in units of 10^-places.
pub(crate) fn decimal(alloc: Global, places: &str, text: &str) -> Result<String, Wrong> {
    let places: u32 = places.parse()?;
    if places > 6 {
        return Err(Wrong::NoCase);
    }
    let token = bytes_of(alloc, text)?;
    match read_decimal(&token, places) {
        Ok(value) => Ok(value.to_string(alloc)?),
        Err(bad) => Ok(bad.to_string(alloc)?),
    }
}

/// The count that a text writes, if it is within its limits.
pub(crate) fn count(alloc: Global, least: &str, most: &str, text: &str) -> Result<String, Wrong> {
    let count = read_count(text, least.parse()?, most.parse()?);
    Ok(format!(in alloc; "{count:?}")?)
}

/// The tokens of a file, each behind its place.
pub(crate) fn tokens(alloc: Global, text: &str) -> Result<String, Wrong> {
    let bytes = bytes_of(alloc, text)?;
    Ok(all_tokens(alloc, &bytes)?)
}

fn all_tokens(alloc: Global, bytes: &[u8]) -> Result<String, AllocError> {
    let mut told = String::new(alloc);
    for (place, token) in Tokens::over(bytes) {
        write!(told, "{place} \"{}\", ", token.escape_ascii())?;
    }
    told.push_str("end")?;
    Ok(told)
}

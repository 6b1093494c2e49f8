//! Numbers as words of text.

use std::alloc::{AllocError, Global};

/// The greatest part that a cut may have.
pub const MOST_PART: u32 = 1000;

/// The node that a word names.
pub fn node(word: &str) -> u32 {
    word.parse().unwrap_or(u32::MAX)
}

/// The number after the word, where the text begins with it, and the rest; else 1 and the whole text.
pub fn number_behind<'t>(word: &str, text: &'t str) -> (u32, &'t str) {
    let (first, rest) = text.split_once(' ').unwrap_or((text, ""));
    if first != word {
        return (1, text);
    }
    let (number, rest) = rest.split_once(' ').unwrap_or((rest, ""));
    (node(number), rest)
}

/// The numbers of the words. A word that is no number counts as the greatest number.
pub fn amounts(alloc: Global, text: &str) -> Result<Vec<u128>, AllocError> {
    let mut amounts = Vec::new(alloc);
    for word in text.split_whitespace() {
        amounts.push(amount(word))?;
    }
    Ok(amounts)
}

/// The number of a word.
pub fn amount(word: &str) -> u128 {
    word.parse().unwrap_or(u128::MAX)
}

//! Scans the text of a certificate byte by byte into items, without memory.
//!
//! - [`Scan`] takes the bytes of a text, one by `step` or many by `run`, and gives an [`Item`] as soon as its bytes are
//!   there. It holds a few numbers and the pairs of one dual, however long the text is.
//! - `finish` gives the [`Fault`] of the bytes so far, or that they are the whole text of a certificate.
//!
//! An item is given with the byte that ends it, and so before its line has ended. The text of a certificate is made of
//! pieces, some bytes with their item ([`pieces_are_text`]). The items so far are those of the pieces that are
//! complete. Where the rest of the line breaks the grammar, the text has a fault in this line, and the caller drops the
//! item. At any time the items given are those of lines that the grammar allows in this order, and the first items of
//! one more line. The numbers of that line are in range.
//!
//! The text is defined in `cert_spec`. A line begins at a stage of the text (`stages`), has a keyword (`heads`) and
//! numbers at places (`places`, and `marks` for those of a mark and of a proof). The effect of one byte is in `bytes`.
//! From the second version on no dual of a plain cut may equal the one before it in its origin, while one of a marked
//! cut may. `repeats` tests that by the items.
//!
//! What the bytes at hand have in full is taken at once, with the same result as byte by byte:
//!
//! - the first word of a line, and a short number (`digits`);
//! - the line of a dual or of a proof up to its list (`line_starts`, `fronts`);
//! - a node of a dual with its value (`pairs`), and an entry of a proof with its count (`proof_ways`).
//!
//! Most digits are read from words of eight bytes (`words`).
#![tactic(auto)]

mod bytes;
mod digits;
mod fronts;
mod heads;
mod items;
mod line_starts;
mod marks;
mod pairs;
mod pieces;
mod places;
mod proof_ways;
mod repeats;
mod scanner;
mod stages;
mod words;

pub use items::{Fault, Item, Version};
pub use pieces::pieces_are_text;
pub use scanner::Scan;

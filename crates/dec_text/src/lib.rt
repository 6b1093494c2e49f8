//! Reads tokens and decimal numbers from bytes, and prints numbers and lines.
//!
//! - [`Tokens`] goes over the tokens of a file, each with its place.
//! - [`read_decimal`] reads a decimal of a token, cut to so many places, or answers [`BadNumber`].
//! - [`read_count`] reads a count within its limits.
//! - [`put_line`] puts the [`Piece`]s of a line as one text, [`put_pieces`] does so through a buffer that many lines
//!   share, and [`put_number`], [`put_fixed`] and [`put_after_space`] put one number.
//!
//! Nothing here takes memory. What a token is, which number it writes and how one is printed is defined in
//! `text_spec`; what a piece writes, in `specs/Lines.antt`.
#![tactic(auto)]

// Reading.
mod counts;
mod decimals;
mod digits;
mod tokens;

// Writing.
mod numbers;
mod pieces;

pub use counts::read_count;
pub use decimals::{BadNumber, read_decimal};
pub use numbers::{put_after_space, put_fixed, put_number};
pub use pieces::{Piece, put_line, put_pieces};
pub use tokens::Tokens;

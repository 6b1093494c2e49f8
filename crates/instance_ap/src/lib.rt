//! Reads instance files in the layout `ap` (Australia Post).
//!
//! A file holds the number of nodes n, then n pairs of coordinates, n * n flows row by row, the listed number of hubs,
//! the factors of collection, trunk and delivery, and a tail: whatever it holds is not looked at, or it is a fixed
//! cost for each node and nothing more. [`read_ap`] gives the parts of the instance, or the first fault in the order
//! of tokens.
#![tactic(auto)]

// The file as a whole.
mod layout;

// Its tokens, those of each kind in turn.
mod reading;

// Where the nodes lie, and how far apart.
mod distances;
mod points;

pub use layout::read_ap;

//! The order of the origins in a pass, those with the most steps first, and how many are under way at a time.

use crate::waits::Quote;
use ascent_lengths::{Lengths, row, short};
use dual_flow::Turn;

/// One more origin is under way for each of this many nodes, whatever the workers.
const NODES_FOR_AN_ORIGIN: usize = 50;

/// How many origins are under way at a time, and how often each counts its own changes.
///
/// An origin starts from the loads that all before it left, except the last ones, which are still under way. So about
/// as many others change the loads meanwhile, and it counts its own changes as if some of them did the same.
#[derive(Clone, Copy)]
pub(crate) struct Window {
    pub(crate) origins: usize,
    pub(crate) copies: u32,
}

impl Window {
    /// The window for this many nodes.
    pub(crate) fn of(size: usize) -> Window {
        let copies = size.div_ceil(NODES_FOR_AN_ORIGIN).max(1);
        Window {
            origins: copies.wrapping_add(copies / 2),
            copies: short(copies),
        }
    }

    /// How many origins are finished when the one at this position starts.
    pub(crate) fn over_before(self, position: usize) -> usize {
        position.wrapping_add(1).saturating_sub(self.origins)
    }
}

/// Sorts the origins by how many of their commodities the next pass leaves out, the fewest first.
pub(crate) fn schedule(lengths: &Lengths, quotes: &[Quote], origins: &mut [Turn]) {
    for (i, turn) in origins.iter_mut().enumerate() {
        let quotes = row(quotes, i, lengths.size).iter();
        let left_out = quotes
            .zip(lengths.flows(i))
            .filter(|(quote, flow)| **flow == 0 || quote.wait.goes_on())
            .count();
        *turn = Turn {
            rank: short(left_out) as i64,
            place: i,
        };
    }
    origins.sort_unstable();
}

//! The limits of the numbers among the arguments, besides those of the instance options.

/// Of the nodes that a search is held to: 2^63.
pub(crate) const MOST_SEARCH_NODES: u64 = 9_223_372_036_854_775_808;

/// Of the workers of a search.
pub(crate) const MOST_WORKERS: u32 = 64;

/// Of the gap between the bound and the cost, in thousandths of a per cent of the cost.
pub(crate) const MOST_GAP: u64 = 100_000;

/// Of the seed of a made instance.
pub(crate) const MOST_SEED: u32 = 1_000_000;

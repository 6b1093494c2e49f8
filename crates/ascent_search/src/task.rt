//! The task of a search.

use hub_model::Instance;

/// The greatest gap, in thousandths of a per cent: the whole cost.
pub(crate) const MOST_GAP: u32 = 100_000;

/// The task of a search.
#[derive(Clone, Copy)]
pub struct SearchTask<'a> {
    /// The instance.
    pub instance: &'a Instance,
    /// The limit on the nodes of the tree, with the root; `None` is no limit.
    pub nodes: Option<u64>,
    /// The gap that the search may leave between bound and cost, in thousandths of a per cent of the cost.
    pub gap: u32,
    /// The number of workers that compute exact prices, 1 to 64.
    pub workers: u32,
    /// Nodes to try as the first incumbent. They become it where they are a feasible set of candidates of the wanted
    /// number, and cost less than the instance's own first incumbent.
    pub first: &'a [u32],
}

//! The warm start of a search.

use cut_model::StatedCut;

/// A warm start: imported cuts, and hubs that are tried first.
#[derive(Drop)]
pub struct Start {
    /// The cuts, in the order in which they are numbered.
    pub cuts: Vec<StatedCut>,
    /// The hubs, ascending.
    pub hubs: Vec<u32>,
}

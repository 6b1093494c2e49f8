//! The heuristic of a search, called with nodes in place of places.

use hub_model::{Branch, HubSet};
use search_advice::{Advice, Side};
use std::alloc::{AllocError, Global};

/// The heuristic, and buffers for the sides of a branch and the hubs of a set by place.
#[derive(Drop)]
pub(crate) struct Guide<A> {
    pub(crate) advice: A,
    places: Places,
}

/// By place: the side in a branch, and whether it is a hub.
#[derive(Drop)]
struct Places {
    sides: Vec<Side>,
    hubs: Vec<bool>,
}

impl Places {
    fn new(alloc: Global, places: usize) -> Result<Places, AllocError> {
        Ok(Places {
            sides: vec![in alloc; Side::Free; places]?,
            hubs: vec![in alloc; false; places]?,
        })
    }

    // Sets the sides of the branch and the hubs.
    fn mark(&mut self, candidates: &[u32], branch: &Branch, hubs: &[u32]) {
        set_sides(candidates, branch, &mut self.sides);
        set_marks(candidates, hubs, &mut self.hubs);
    }
}

impl<A: Advice + Drop> Guide<A> {
    /// Wraps this heuristic, for this many places.
    pub(crate) fn new(alloc: Global, places: usize, advice: A) -> Result<Guide<A>, AllocError> {
        let places = Places::new(alloc, places)?;
        Ok(Guide { advice, places })
    }

    /// Enters the branch. A first hub set is made from the hubs.
    pub(crate) fn enter(&mut self, candidates: &[u32], branch: &Branch, hubs: &HubSet) {
        self.places.mark(candidates, branch, hubs.members());
        self.advice.enter(&self.places.sides, &self.places.hubs);
    }

    /// Returns whether a pass is worth its time, for this cutoff in 10^-12.
    pub(crate) fn goes_on(&self, wanted: i128) -> bool {
        self.advice.bound_hint() < wanted && self.advice.goes_on(wanted)
    }

    /// Returns whether the heuristic's hub set seems to cost less than this, in 10^-12.
    pub(crate) fn has_guess_below(&self, cost: i128) -> bool {
        self.advice.cost_hint() < cost
    }

    /// The nodes of the heuristic's hub set, ascending.
    pub(crate) fn guess(&self, alloc: Global, candidates: &[u32]) -> Result<Vec<u32>, AllocError> {
        marked(alloc, candidates, self.advice.guess())
    }

    /// The node to branch on, if the heuristic names one.
    pub(crate) fn branch_node(&self, candidates: &[u32]) -> Option<u32> {
        let place = self.advice.branch_place()?;
        candidates.get(place).copied()
    }
}

// Sets the side of each candidate.
fn set_sides(candidates: &[u32], branch: &Branch, sides: &mut [Side]) {
    for x in 0..sides.len() {
        let k = candidates.get(x).copied().unwrap_or(0);
        sides[x] = side_of(branch, k);
    }
}

fn side_of(branch: &Branch, k: u32) -> Side {
    if branch.inside().contains(&k) {
        Side::In
    } else if branch.outside().contains(&k) {
        Side::Out
    } else {
        Side::Free
    }
}

// Marks the candidates that are among the hubs.
fn set_marks(candidates: &[u32], hubs: &[u32], marks: &mut [bool]) {
    for x in 0..marks.len() {
        let k = candidates.get(x).copied().unwrap_or(0);
        marks[x] = hubs.contains(&k);
    }
}

// The marked candidates, in order.
fn marked(alloc: Global, candidates: &[u32], marks: &[bool]) -> Result<Vec<u32>, AllocError> {
    let mut nodes = Vec::new(alloc);
    for x in 0..candidates.len() {
        if marks.get(x).copied().unwrap_or(false) {
            nodes.push(candidates[x])?;
        }
    }
    Ok(nodes)
}

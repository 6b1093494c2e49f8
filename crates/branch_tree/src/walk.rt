//! A depth-first walk over the tree: its task, its rule, and its state.

use search_core::Task;
use search_steps::Progress;
use std::alloc::Global;

/// A walk over the tree: its task, the rule, and what the search has so far.
#[derive(Drop)]
pub(crate) struct RuleWalk<'a, R> {
    pub(crate) alloc: Global,
    pub(crate) task: &'a Task<'a>,
    pub(crate) rule: &'a R,
    pub(crate) progress: Progress,
}

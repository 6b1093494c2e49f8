//! What a search found.

ghost use Rattle.std.specs.Prelude.{◌≡◌};

use crate::KeptCuts;
use hub_model::{Plan, TreeLine};

/// The finding of a search: a plan, with the cuts and the tree that bound the cost of every plan from below.
///
/// The lines are the tree's in preorder, the open child first. Cuts are counted from 1. `IsProved` in the specs says
/// that it is a certificate of an instance.
#[derive(Drop)]
pub struct Found {
    /// The cost of the plan, in 10^-12.
    pub cost: u128,
    /// The lower bound: no plan costs less, in 10^-12.
    pub bound: u128,
    /// The plan.
    pub plan: Plan,
    /// The cuts: all of the pool (`solve`, `resolve`), or those that the leaves name (`optimize`).
    pub cuts: KeptCuts,
    /// The lines of the tree.
    pub tree: Vec<TreeLine>,
}

//! A pending node, and the outcome of its evaluation.

ghost use Rattle.std.specs.Prelude.{◌≡◌, IfOk};
ghost use Rattle.hub_model.specs.Lines.{tree_line_of};
ghost use Rattle.frac_master.specs.Advice.{advice_of_code};
ghost use Rattle.node_rounds.specs.Searchers.{IsAsGood};

use cut_pool::CutSums;
use frac_master::Advice;
use hub_model::{Branch, HubSet, TreeLine};
use leaf_bound::Side;
use std::alloc::{AllocError, Global};

/// A pending node.
#[derive(Drop)]
pub struct Pending {
    /// Its branch.
    pub branch: Branch,
    /// Its weights on the first cuts, in 10^-6.
    pub weights: Vec<u128>,
    /// How often it waited for the cut of its set.
    pub waits: u32,
}

/// The outcome of a node's evaluation.
#[derive(Drop)]
pub enum Outcome {
    /// The node ends with this line.
    Ends(TreeLine),
    /// The node requires the cut of a hub set over an order of the other candidates.
    Ask {
        /// The hub set.
        set: HubSet,
        /// The order.
        order: Vec<u32>,
        /// The node's new weights, in 10^-6.
        weights: Vec<u128>,
        /// Whether this counts as a wait.
        waited: bool,
        /// The sums of the cut, where it was computed with the evaluation.
        sums: Option<CutSums>,
    },
    /// The node branches.
    Split {
        /// The node's new weights, in 10^-6.
        weights: Vec<u128>,
        /// The free candidates fixed by variable fixing, ascending, each with its fixed side.
        fixings: Vec<(u32, Side)>,
        /// The master's result, whose point chooses the node to branch on.
        advice: Advice,
    },
}

impl Outcome {
    /// The same again, as far as the search goes by it.
    pub(crate) fn copy(&self, alloc: Global) -> Result<Outcome, AllocError>
        ensures { IfOk result (IsAsGood self.now) }
    {
        match self {
            Outcome::Ends(line) => Ok(Outcome::Ends(copied_line(alloc, line)?)),
            Outcome::Ask {
                set,
                order,
                weights,
                waited,
                sums,
            } => Ok(Outcome::Ask {
                set: set.copy(alloc)?,
                order: order.to_vec(alloc)?,
                weights: weights.to_vec(alloc)?,
                waited: *waited,
                sums: match sums {
                    Some(sums) => Some(sums.copy(alloc)?),
                    None => None,
                },
            }),
            Outcome::Split {
                weights,
                fixings,
                advice,
            } => Ok(Outcome::Split {
                weights: weights.to_vec(alloc)?,
                fixings: fixings.to_vec(alloc)?,
                advice: copied_advice(alloc, advice)?,
            }),
        }
    }
}

// The same line again.
fn copied_line(alloc: Global, line: &TreeLine) -> Result<TreeLine, AllocError>
    ensures { IfOk result (λ copy. tree_line_of copy ≡ tree_line_of line.now) }
{
    Ok(match line {
        TreeLine::BranchOn(k) => TreeLine::BranchOn(*k),
        TreeLine::Leaf(mix) => TreeLine::Leaf(mix.copy(alloc)?),
        TreeLine::Empty => TreeLine::Empty,
        TreeLine::Block { i, j } => TreeLine::Block { i: *i, j: *j },
        TreeLine::Count => TreeLine::Count,
    })
}

// A copy of the master's result.
fn copied_advice(alloc: Global, advice: &Advice) -> Result<Advice, AllocError>
    ensures { IfOk result (λ copy. advice_of_code copy ≡ advice_of_code advice.now) }
{
    Ok(Advice {
        weights: advice.weights.to_vec(alloc)?,
        point: advice.point.to_vec(alloc)?,
        scale: advice.scale,
        ended: advice.ended,
        pivots: advice.pivots,
    })
}

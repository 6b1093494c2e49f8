//! The state of a search.

ghost use Rattle.std.specs.Prelude.{◌≡◌, ◌≤◌, ◌+◌, OnOk};
ghost use Rattle.hub_spec.specs.Limits.{most_tree_lines};
ghost use Rattle.search_spec.specs.Steps.{may_split};
ghost use Rattle.search_steps.specs.Progressing.{state_of, IsGoing};

use cut_pool::Pool;
use hub_model::{HubSet, MOST_TREE_LINES, TreeLine};
use search_core::Task;
use std::alloc::AllocError;

/// The state of a search: the pool, the finished lines of the tree, the incumbent with its cost, and the number of
/// nodes. After a stop it has the least bound of the leaves that the stop left. Costs and bounds are in 10^-12.
#[derive(Drop)]
pub struct Progress {
    /// The cuts.
    pub pool: Pool,
    /// The finished lines of the tree.
    pub lines: Vec<TreeLine>,
    /// The incumbent.
    pub hubs: HubSet,
    /// The incumbent's cost, in 10^-12.
    pub cost: u128,
    /// The number of nodes made, the root included.
    pub made: u64,
    /// After a stop, the least bound of the leaves that it left, in 10^-12.
    pub stop: Option<u128>,
}

/// Tells whether two more nodes are within the limit.
pub fn may_split(task: &Task, progress: &Progress) -> bool
    requires { IsGoing task.now progress.now }
    ensures { result ≡ may_split task.now.nodes (state_of task.now.instance.now progress.now) }
{
    task.allows_two(progress.made)
}

/// Counts two more nodes. It fails where the tree would have more lines than a certificate can have.
pub fn two_more(progress: &mut Progress) -> Result<(), AllocError>
    requires few { progress.old.made ≤ most_tree_lines }
    ensures more { OnOk result (progress.new ≡ (record progress.old { made = progress.old.made + 2 })) }
    ensures few { OnOk result (progress.new.made ≤ most_tree_lines) }
{
    if progress.made + 2 > MOST_TREE_LINES as u64 {
        return Err(AllocError);
    }
    progress.made += 2;
    Ok(())
}

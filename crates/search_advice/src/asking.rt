//! The trait of heuristics.

ghost use denote.Param.Send.{IsSync};

use crate::Side;
use std::alloc::{AllocError, Global};
use std::thread::Threads;

/// A heuristic at the nodes of a search, one after another.
///
/// A search enters a node and makes ascent passes there, as long as they pay. Then it makes the Benders cut from the
/// dual values, or branches. Before it goes into a child it stores the state of the node, and restores it later. It
/// relies on no returned number, and on no length of a list.
pub trait Advice {
    /// The unit of the values, in 10^-6 per unit of flow.
    fn unit(&self) -> u64;

    /// Enters the node with these sides. A first hub set is made from the marked hubs.
    fn enter(&mut self, sides: &[Side], hubs: &[bool]);

    /// Makes one ascent pass, and improves the hub set. `wanted` is the cutoff that the bound should reach. Where
    /// memory runs out, the pass may be incomplete. Threads may share the handle.
    fn better<R: Threads + Sync>(
        &mut self,
        rt: &R,
        alloc: Global,
        wanted: i128,
    ) -> Result<(), AllocError>
        requires { IsSync R.row };

    /// Returns whether another pass is worth its time, for this cutoff.
    fn goes_on(&self, wanted: i128) -> bool;

    /// Ends the passes at the node, and returns whether the values are complete. If not, the bound is below the cutoff
    /// `wanted`, the node may be branched, and the candidate to branch on is chosen. Threads may share the handle.
    fn settle<R: Threads + Sync>(
        &mut self,
        rt: &R,
        alloc: Global,
        wanted: i128,
        may_branch: bool,
    ) -> Result<bool, AllocError>
        requires { IsSync R.row };

    /// An estimate of the bound that the Benders cut from these dual values gives the node.
    fn bound_hint(&self) -> i128;

    /// The values, commodity by commodity, one for each place, in the unit.
    fn values(&self) -> &[u32];

    /// An estimate of the cost of the best hub set.
    fn cost_hint(&self) -> i128;

    /// The best hub set that was found at the node, as marks by place; none are set if none was found.
    fn guess(&self) -> &[bool];

    /// The free candidate to branch on, as a place, if any is free.
    fn branch_place(&self) -> Option<usize>;

    /// Stores the state of the node. Calls are nested: the last state is restored first. Some may be dropped to save
    /// memory.
    fn put_aside(&mut self, alloc: Global) -> Result<(), AllocError>;

    /// Restores the last state, unless it was dropped, and removes it.
    fn go_back(&mut self);
}

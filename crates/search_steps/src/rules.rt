//! The choices of a search that depend on the wanted number of hubs.

ghost use Rattle.std.specs.Prelude.{◌≡◌, ◌≤◌, ◌^◌, [], ◌∷◌, false, None, Some, option_map, IfOk};
ghost use Rattle.hub_spec.specs.Problem.{Problem, IsProblem};
ghost use Rattle.hub_spec.specs.Plans.{IsHubSet};
ghost use Rattle.hub_spec.specs.Trees.{IsBranch, HasRoom, preorder};
ghost use Rattle.hub_model.specs.Lines.{tree_line_of};
ghost use Rattle.leaf_bound.specs.Weighing.{most_bound, IsWithin};
ghost use Rattle.frac_master.specs.Advice.{advice_of_code};
ghost use Rattle.search_spec.specs.Laws.{GoesOn};
ghost use Rattle.search_spec.specs.Steps.{bound_at, closes_at, fixings};
ghost use Rattle.search_steps.specs.Advising.{told_by, advised_costs, parts_of};
ghost use Rattle.search_steps.specs.Pools.{InEachState, InEachStateAt};
ghost use Rattle.search_steps.specs.Weights.{pairs_of, sides_as, AreWeighed};

use crate::NodeWeights;
use crate::picking::pick_any;
use frac_master::Advice;
use hub_fixing::fix;
use hub_model::{Branch, HubSet, Instance, TreeLine};
use leaf_bound::Side;
use p_hub::{blocked_line, bound_by_number, end_by_number, fix_p, only_set};
use std::alloc::{AllocError, Global};

/// The rule of a search: its choices that depend on the wanted number of hubs. Costs are in 10^-12.
///
/// Each choice is that of the search's definition, for the instances of the rule. It is made here by the rule's wanted
/// number of hubs; a rule of other plans would make it in another way. A branch has room where it can have the wanted
/// number of hubs, or where none is wanted. A search bounds no other branch.
pub trait Rule {
    // The instances that it is the rule of.
    ghost serves: { Self → Problem → Type 0 };

    /// The wanted number of hubs, if one is.
    fn wanted(&self) -> Option<u32>
        ensures { (p : Problem) → serves self.now p → result ≡ p.wanted };

    /// The leaf of a branch that has no hub set because of its numbers of open and free nodes, if it is one.
    fn end(&self, branch: &Branch) -> Option<TreeLine>
        ensures { (p : Problem) → serves self.now p
            → option_map (λ line. tree_line_of line ∷ []) result ≡ option_map preorder ((parts_of p).barren branch.now) }
    {
        end_by_number(self.wanted(), branch)
    }

    /// The leaf of a branch whose nodes that are not closed are infeasible for a commodity together, if it is one.
    /// `end` gives no leaf for the branch.
    fn blocked(
        &self,
        alloc: Global,
        instance: &Instance,
        branch: &Branch,
    ) -> Result<Option<TreeLine>, AllocError>
        requires serves { serves self.now instance.now }
        requires branch { IsBranch instance.now branch.now }
        requires no_end { (parts_of instance.now).barren branch.now ≡ None }
        ensures { let p = instance.now in IfOk result
            (λ line. option_map (λ l. tree_line_of l ∷ []) line ≡ option_map preorder ((parts_of p).blocked branch.now)) }
    {
        blocked_line(alloc, instance, branch)
    }

    /// The only hub set of a branch, if it has just one. For a branch that ends it may be empty.
    fn alone(
        &self,
        alloc: Global,
        instance: &Instance,
        branch: &Branch,
    ) -> Result<Option<Vec<u32>>, AllocError>
        requires serves { serves self.now instance.now }
        requires branch { IsBranch instance.now branch.now }
        ensures { IfOk result (λ set. option_map (λ hubs. hubs.items) set ≡ (parts_of instance.now).only branch.now) }
    {
        only_set(alloc, instance, branch)
    }

    /// The fixed costs for the master, where the incumbent has this cost. They are in `room`, unless they are the
    /// instance's own.
    fn advised_costs<'a>(
        &self,
        instance: &'a Instance,
        cost: u128,
        room: &'a mut Vec<u128>,
    ) -> Result<&'a [u128], AllocError>
        requires serves { serves self.now instance.now }
        requires cost { cost ≤ 10 ^ 30 }
        ensures problem { IsProblem instance.now }
        ensures costs { IfOk result (λ costs. costs.now ≡ advised_costs instance.now cost) }
    {
        let fixed = instance.fixed_costs();
        let Some(hubs) = self.wanted() else {
            return Ok(fixed);
        };
        let share = cost / hubs as u128;
        room.clear();
        for own in fixed {
            room.push(*own + share)?;
        }
        Ok(room)
    }

    /// The bound of the branch, which has room, under these weights, in 10^-12, times 10^6.
    fn bound(&self, weighed: &NodeWeights, branch: &Branch) -> i128
        requires serves { serves self.now weighed.now.instance.now }
        requires weighed { AreWeighed weighed.now }
        requires branch { IsBranch weighed.now.instance.now branch.now }
        requires room { HasRoom weighed.now.instance.now.wanted branch.now }
        ensures value { let p = weighed.now.instance.now in InEachState p weighed.now.pool.now.entries
            (λ s. result ≡ bound_at p s branch.now (pairs_of weighed.now.weights.now)) }
        ensures limit { IsWithin most_bound result }
    {
        bound_by_number(weighed.instance, &weighed.weighting(), branch)
    }

    /// Variable fixing: the free candidates of the branch that these weights decide, ascending, each with the side to
    /// which it is fixed. The child on its other side is fathomed at the incumbent's cost. The branch itself is not.
    fn fixings(
        &self,
        alloc: Global,
        weighed: &NodeWeights,
        branch: &Branch,
        cost: u128,
    ) -> Result<Vec<(u32, Side)>, AllocError>
        requires serves { serves self.now weighed.now.instance.now }
        requires weighed { AreWeighed weighed.now }
        requires branch { IsBranch weighed.now.instance.now branch.now }
        requires goes_on { GoesOn (parts_of weighed.now.instance.now) branch.now }
        requires cost { cost ≤ 10 ^ 30 }
        requires not_closed { let p = weighed.now.instance.now in InEachStateAt p weighed.now.pool.now.entries cost
            (λ s. closes_at p s branch.now (pairs_of weighed.now.weights.now) ≡ false) }
        ensures { let p = weighed.now.instance.now in
            IfOk result (λ sides. InEachStateAt p weighed.now.pool.now.entries cost
            (λ s. sides_as sides.items ≡ fixings p s branch.now (pairs_of weighed.now.weights.now))) }
    {
        let lent = weighed.weighting();
        match self.wanted() {
            None => fix(alloc, &lent, branch, cost),
            Some(hubs) => fix_p(alloc, &lent, branch, cost, hubs),
        }
    }

    /// The hub set to separate, by the master's point.
    fn pick(
        &self,
        alloc: Global,
        instance: &Instance,
        advice: &Advice,
        branch: &Branch,
    ) -> Result<HubSet, AllocError>
        requires serves { serves self.now instance.now }
        requires branch { IsBranch instance.now branch.now }
        requires goes_on { GoesOn (parts_of instance.now) branch.now }
        ensures picked { let p = instance.now in
            IfOk result (λ set. set ≡ (parts_of p).pick (told_by (advice_of_code advice.now)) branch.now) }
        ensures set { IsProblem instance.now → IfOk result (IsHubSet instance.now) }
    {
        match self.wanted() {
            None => pick_any(alloc, instance, advice, branch),
            Some(hubs) => p_hub::pick(alloc, &advice.point, branch, hubs),
        }
    }
}

/// The rule for any number of hubs. A branch ends where every candidate is closed, or where those not closed are
/// infeasible for a commodity. It has a single hub set where no node is free.
pub struct Plain;

impl Rule for Plain {
    ghost serves = { λ rule p. p.wanted ≡ None };

    fn wanted(&self) -> Option<u32> {
        None
    }
}

/// The rule for exactly p hubs. A branch ends where it cannot have p hubs. It has a single hub set where p candidates
/// are open, or where exactly p are not closed.
pub struct Counted {
    /// The wanted number of hubs, p.
    pub hubs: u32,
}

impl Rule for Counted {
    ghost serves = { λ rule p. p.wanted ≡ Some rule.hubs };

    fn wanted(&self) -> Option<u32> {
        Some(self.hubs)
    }
}

//! A separator on one thread.

ghost use Rattle.std.specs.Prelude.{◌≡◌, IfOk};
ghost use Rattle.hub_spec.specs.Problem.{IsProblem};
ghost use Rattle.hub_spec.specs.Plans.{IsHubSet};
ghost use Rattle.hub_spec.specs.Separation.{IsOrder};
ghost use Rattle.cut_pool.specs.Entries.{entry_of};
ghost use Rattle.search_steps.specs.Pools.{IsSumsOf};
ghost use Rattle.search_steps.specs.Kinds.{minimal};

use crate::{Separated, Separator};
use cut_pool::CutSums;
use hub_model::{HubSet, Instance};
use pareto_cuts::{Scratch, cut_sums};
use std::alloc::{AllocError, Global};
use std::marker::Model;

/// Separates on the calling thread.
///
/// It is seen as the number of nodes for which its workspace is allocated. The workspace grows for a larger instance.
/// Otherwise a call allocates only the loads of its result.
#[derive(Drop)]
pub struct Solo {
    room: u32,
    scratch: Scratch,
    loads: Vec<u128>,
}

impl Model for Solo {
    ghost use Rattle.std.specs.Prelude.{◌≡◌, ℕ};

    ghost Value = { ℕ };

    ghost view = { λ s. s.room };

    ghost invariant = { λ s. s.scratch.room ≡ s.room };
}

impl Solo {
    /// A separator with a workspace for the instance's nodes.
    pub fn new(alloc: Global, instance: &Instance) -> Result<Solo, AllocError>
        ensures room { IfOk result (λ room. room ≡ instance.now.size) }
        ensures problem { IsProblem instance.now }
    {
        let room = instance.size();
        Ok(Solo {
            room,
            scratch: Scratch::new(alloc, instance)?,
            loads: Vec::with_capacity(alloc, room as usize)?,
        })
    }

    /// The sums of the cut of minimal duals of the hub set over this order of the other candidates, in 10^-12.
    pub fn sums(
        &mut self,
        alloc: Global,
        instance: &Instance,
        set: HubSet,
        order: &[u32],
    ) -> Result<CutSums, AllocError>
        requires set { IsHubSet instance.now set }
        requires order { IsOrder instance.now set order.now }
        ensures hubs { IfOk result (λ s. s.hubs ≡ set) }
        ensures sums { IfOk result (λ s. IsSumsOf instance.now (entry_of s order.now)) }
    {
        let nodes = instance.size();
        if self.room < nodes {
            *self = Solo::new(alloc, instance)?;
        }
        self.loads.resize(nodes as usize, 0)?;
        let total = cut_sums(&mut self.scratch, instance, &set, order, &mut self.loads);
        kept_sums(alloc, set, total, &self.loads)
    }
}

impl Separator for Solo {
    ghost kind = { minimal };

    ghost ready = { λ s. Unit {0} };

    fn separate(
        &mut self,
        alloc: Global,
        instance: &Instance,
        set: HubSet,
        order: &[u32],
    ) -> Result<Separated, AllocError> {
        Ok(Separated::Sums(self.sums(alloc, instance, set, order)?))
    }
}

// The sums of a Benders cut from the hub set, as a search stores them.
fn kept_sums(alloc: Global, set: HubSet, total: u128, loads: &[u128]) -> Result<CutSums, AllocError>
    ensures { IfOk result (λ s. s ≡ record { hubs = set; total = total; loads = loads.now }) }
{
    Ok(CutSums::new(set, total, loads.to_vec(alloc)?))
}

//! A separator of several workers.

ghost use Rattle.std.specs.Prelude.{◌≡◌, IfOk};
ghost use Rattle.hub_spec.specs.Plans.{IsHubSet};
ghost use Rattle.hub_spec.specs.Separation.{IsOrder};
ghost use Rattle.cut_pool.specs.Entries.{entry_of};
ghost use Rattle.search_steps.specs.Pools.{IsSumsOf};
ghost use Rattle.search_steps.specs.Kinds.{minimal};

use cut_pool::CutSums;
use hub_model::{HubSet, Instance};
use search_steps::{Separated, Separator};
use std::alloc::{AllocError, Global};

/// Separates by a closure, which may start threads.
///
/// A search knows no threads. Where the program's handle is, the closure calls `separate_sums` with as many workers as
/// `workers_for` says. The closure must accept every set and order, and return the sums of their cut.
#[derive(Drop)]
pub struct Crew<F: Drop> {
    /// Separates the hub set over the order.
    pub cut: F,
}

impl<F: Fn(Global, &Instance, HubSet, &[u32]) -> Result<CutSums, AllocError> + Drop> Separator
    for Crew<F> {
    ghost kind = { minimal };

    ghost ready = { λ s. ((a : _) (i : _) (h : _) (o : _) → IsHubSet i.now h → IsOrder i.now h o.now → F.pre s.cut a i h o)
        × ((a : _) (i : _) (h : _) (o : _) (r : _) → F.post s.cut a i h o r → IfOk r (λ c. c.hubs ≡ h))
        × ((a : _) (i : _) (h : _) (o : _) (r : _) → F.post s.cut a i h o r → IfOk r (λ c. IsSumsOf i.now (entry_of c o.now))) };

    fn separate(
        &mut self,
        alloc: Global,
        instance: &Instance,
        set: HubSet,
        order: &[u32],
    ) -> Result<Separated, AllocError> {
        Ok(Separated::Sums((self.cut)(alloc, instance, set, order)?))
    }
}

//! The interface of separation.

ghost use Rattle.std.specs.Prelude.{◌≡◌, IfOk};
ghost use Rattle.hub_spec.specs.Plans.{IsHubSet};
ghost use Rattle.hub_spec.specs.Separation.{IsOrder};
ghost use Rattle.search_steps.specs.Kinds.{CutKind};
ghost use Rattle.search_steps.specs.Entered.{entry_with, hubs_in, IsEntryOf};

use cut_model::MarkedCut;
use cut_pool::CutSums;
use hub_model::{HubSet, Instance};
use std::alloc::{AllocError, Global};

/// The separated cut of a hub set.
#[derive(Drop)]
pub enum Separated {
    /// The sums of a cut whose duals can be computed again.
    Sums(CutSums),
    /// A Pareto-optimal cut.
    Core(MarkedCut),
}

impl Separated {
    /// The hubs of the set, ascending.
    pub fn hubs(&self) -> &[u32]
        ensures { result.now ≡ hubs_in self.now }
    {
        match self {
            Separated::Sums(sums) => sums.set().members(),
            Separated::Core(cut) => cut.mark.hubs(),
        }
    }
}

/// Separates hub sets: computes their Benders cuts.
pub trait Separator {
    // Which cuts it works out.
    ghost kind: { CutKind };

    // What holds of a separator that may be called.
    ghost ready: { Self → Type 0 };

    /// The cut of the hub set over this order of the other candidates: its sums, in 10^-12, or the Pareto-optimal cut.
    fn separate(
        &mut self,
        alloc: Global,
        instance: &Instance,
        set: HubSet,
        order: &[u32],
    ) -> Result<Separated, AllocError>
        requires ready { ready self.old }
        requires set { IsHubSet instance.now set }
        requires order { IsOrder instance.now set order.now }
        ensures ready { ready self.new }
        ensures hubs { IfOk result (λ s. hubs_in s ≡ set) }
        ensures cut { let p = instance.now in
            IfOk result (λ s. IsEntryOf kind p set order.now (entry_with p.size s order.now)) };
}

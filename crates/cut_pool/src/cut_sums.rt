//! The sums of a cut.

ghost use Rattle.std.specs.Prelude.{◌≡◌, IfOk};

use hub_model::HubSet;
use std::alloc::{AllocError, Global};
use std::marker::Model;

/// The sums of a cut with its hub set: the total (sum of the prices) and the load of each node (sum of its values).
///
/// The sums are in 10^-12.
#[derive(Drop)]
pub struct CutSums {
    set: HubSet,
    total: u128,
    loads: Vec<u128>,
}

impl Model for CutSums {
    ghost use Rattle.cut_pool.specs.Entries.{Sums};

    ghost Value = { Sums };

    ghost view = { λ s. record { hubs = s.set; total = s.total; loads = s.loads.items } };
}

impl CutSums {
    /// The sums of a cut. `loads` has one load for each node.
    pub fn new(set: HubSet, total: u128, loads: Vec<u128>) -> CutSums
        ensures { result ≡ record { hubs = set; total = total; loads = loads.items } }
    {
        CutSums { set, total, loads }
    }

    /// The hub set.
    pub fn set(&self) -> &HubSet
        ensures { result.now ≡ self.now.hubs }
    {
        &self.set
    }

    /// The total: the sum of the prices, in 10^-12.
    pub fn total(&self) -> u128
        ensures { result ≡ self.now.total }
    {
        self.total
    }

    /// The load of each node (the sum of its values), in 10^-12.
    pub fn loads(&self) -> &[u128]
        ensures { result.now ≡ self.now.loads }
    {
        &self.loads
    }

    /// The hub set, the total and the loads.
    pub fn into_parts(self) -> (HubSet, u128, Vec<u128>)
        ensures set { result.0 ≡ self.hubs }
        ensures total { result.1 ≡ self.total }
        ensures loads { result.2.items ≡ self.loads }
    {
        (self.set, self.total, self.loads)
    }

    /// A copy of the sums.
    pub fn copy(&self, alloc: Global) -> Result<CutSums, AllocError>
        ensures { IfOk result (λ copy. copy ≡ self.now) }
    {
        Ok(CutSums {
            set: self.set.copy(alloc)?,
            total: self.total,
            loads: self.loads.to_vec(alloc)?,
        })
    }
}

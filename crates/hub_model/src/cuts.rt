//! The Benders cut of a hub set.

ghost use Rattle.std.specs.Prelude.{◌≡◌, ℕ, ◌*◌, ◌<◌, ◌≤◌, pos, length, All, IfOk};
ghost use Rattle.hub_spec.specs.Limits.{most_nodes, most_cost};
ghost use Rattle.hub_spec.specs.Cuts.{cut_by, total, load};
ghost use Rattle.hub_model.specs.HubCuts.{AreLoads};

use crate::cut_sums::{loads_of, total_of};
use crate::{Dual, HubSet};
use std::alloc::{AllocError, Global};
use std::marker::Model;

/// The Benders cut of a hub set: a dual for each commodity in order, the total of their prices, and the load of each
/// node (the sum of its values). All are in 10^-12.
#[derive(Clone, Drop)]
pub struct Cut {
    set: HubSet,
    rows: Vec<Dual>,
    total: i128,
    loads: Vec<i128>,
}

impl Model for Cut {
    ghost use Rattle.std.specs.Prelude.{length};
    ghost use Rattle.hub_spec.specs.Cuts.{cut_by};
    ghost use Rattle.hub_model.specs.HubCuts.{HubCut, HasSums};

    ghost Value = { HubCut };

    ghost view = { λ s. record { hubs = s.set; size = length s.loads.items; cut = cut_by s.rows.items } };

    ghost invariant = { λ s. HasSums s.total s.loads.items (cut_by s.rows.items) };
}

impl Cut {
    /// The cut of these duals, for this hub set and number of nodes, with its exact sums.
    ///
    /// There is one dual for each commodity, in order. Prices and values are at most 10^29, in 10^-12. Nodes with
    /// values are below `size`. It fails where memory runs out.
    pub fn gather(alloc: Global, size: u32, set: HubSet, rows: Vec<Dual>) -> Result<Cut, AllocError>
        requires size_least { 1 ≤ size }
        requires size_most { size ≤ most_nodes }
        requires one_each { length rows.items ≡ size * size }
        requires range { All (λ d. (d.a ≤ most_cost) × All (λ (e : ℕ × ℕ). (e.0 < size) × (e.1 ≤ most_cost)) d.u) rows.items }
        ensures { IfOk result (λ c. c ≡ record { hubs = set; size = size; cut = cut_by rows.items }) }
    {
        let total = total_of(&rows);
        let loads = loads_of(alloc, size, &rows)?;
        Ok(Cut {
            set,
            rows,
            total,
            loads,
        })
    }

    /// The hub set.
    pub fn set(&self) -> &HubSet
        ensures { result.now ≡ self.now.hubs }
    {
        &self.set
    }

    /// The duals, one for each commodity in order.
    pub fn rows(&self) -> &[Dual]
        ensures { result.now ≡ self.now.cut.duals }
    {
        &self.rows
    }

    /// The duals, one for each commodity in order. It consumes the cut.
    pub fn into_rows(self) -> Vec<Dual>
        ensures { result.items ≡ self.cut.duals }
    {
        let Cut { rows, .. } = self;
        rows
    }

    /// The total: the sum of the prices, in 10^-12.
    pub fn total(&self) -> i128
        ensures { result ≡ pos (total self.now.cut) }
    {
        self.total
    }

    /// The load of the node, in 10^-12.
    pub fn load(&self, k: u32) -> i128
        ensures { result ≡ pos (load self.now.cut k) }
    {
        match self.loads.get(k as usize) {
            Some(load) => *load,
            None => 0,
        }
    }

    /// The load of each node, in 10^-12.
    pub fn loads(&self) -> &[i128]
        ensures size { length result.now ≡ self.now.size }
        ensures value { AreLoads result.now self.now.cut }
    {
        &self.loads
    }
}

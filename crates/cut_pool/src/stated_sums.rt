//! The sums of an explicit cut.

ghost use Rattle.std.specs.Prelude.{◌≡◌, ◌/◌, ◌≤◌, map, IfOk};
ghost use Rattle.hub_spec.specs.Cuts.{total};
ghost use Rattle.hub_spec.specs.Limits.{most_nodes};
ghost use Rattle.hub_spec.specs.Ranges.{IsCutInRange};
ghost use Rattle.cut_pool.specs.Kept.{node_loads};

use crate::unit_columns::{for_one_unit, most_per_unit, row_of};
use cut_model::StatedCut;
use std::alloc::{AllocError, Global};
use std::marker::Model;

/// The sums of a Pareto-optimal cut or an imported one, in 10^-12.
#[derive(Drop)]
pub(crate) struct StatedSums {
    /// The part of the cut.
    pub(crate) part: u32,
    /// Its total.
    pub(crate) total: u128,
    /// Its load of each node.
    pub(crate) loads: Vec<u128>,
    /// The total for one unit of the part, rounded down.
    pub(crate) unit_total: u128,
    /// The load of each node for one unit of the part, rounded down, where that is above 1.
    pub(crate) unit_row: Vec<u128>,
    /// The greatest load for one unit of the part, rounded down, 0 for none.
    pub(crate) most: u128,
}

impl Model for StatedSums {
    ghost use Rattle.cut_pool.specs.Stated.{PartSums};
    ghost use Rattle.cut_pool.specs.StatedParts.{sums_of, AreForOneUnit};

    ghost Value = { PartSums };

    ghost view = { sums_of };

    ghost invariant = { AreForOneUnit };
}

impl StatedSums {
    /// The sums of the cut, between `size` nodes.
    pub(crate) fn of(alloc: Global, size: u32, cut: &StatedCut) -> Result<StatedSums, AllocError>
        requires size { size ≤ most_nodes }
        requires duals { IsCutInRange size cut.now }
        ensures { IfOk result (λ s. s ≡ record { part = cut.now.part; total = total cut.now; loads = node_loads size cut.now }) }
    {
        let part = cut.part();
        let total = cut.total();
        let loads = cut.loads(alloc, size)?;
        let unit_row = row_of(alloc, part, &loads)?;
        let most = most_per_unit(part, &loads);
        Ok(StatedSums {
            part,
            total,
            loads,
            unit_total: total / u128::from(part),
            unit_row,
            most,
        })
    }

    /// The load of each node for one unit of the part, rounded down.
    pub(crate) fn unit_loads(&self) -> &[u128]
        ensures { result.now ≡ map (λ u. u / self.now.part) self.now.loads }
    {
        for_one_unit(self.part, &self.loads, &self.unit_row)
    }
}

//! The legs of routes over some places, as tables row by row.

use crate::rows::{FAR, at, gather, least_sum, put, row, row_mut};
use std::alloc::{AllocError, Global};

/// Rows of lengths, all of one width.
#[derive(Drop)]
pub struct Table {
    cells: Vec<u32>,
    width: usize,
}

impl Table {
    /// A table of `FAR`, with `rows` rows for `places` lengths each.
    pub fn new(alloc: Global, rows: usize, places: usize) -> Result<Table, AllocError> {
        let width = places.div_ceil(8).wrapping_mul(8);
        let cells = vec![in alloc; FAR; rows.wrapping_mul(width)]?;
        Ok(Table { cells, width })
    }

    /// The row of this index.
    pub fn row(&self, index: usize) -> &[u32] {
        row(&self.cells, index, self.width)
    }

    /// The row of this index, mutable.
    pub fn row_mut(&mut self, index: usize) -> &mut [u32] {
        row_mut(&mut self.cells, index, self.width)
    }

    /// The same rows over these places alone.
    fn gathered(&self, alloc: Global, rows: usize, places: &[usize]) -> Result<Table, AllocError> {
        let mut table = Table::new(alloc, rows, places.len())?;
        for i in 0..rows {
            gather(self.row(i), places, table.row_mut(i));
        }
        Ok(table)
    }

    /// For each row of this table and each row of the other, the least sum of the two.
    fn least_sums(
        &self,
        alloc: Global,
        rows: usize,
        other: &Table,
        places: usize,
    ) -> Result<Table, AllocError> {
        let mut sums = Table::new(alloc, rows, places)?;
        for i in 0..rows {
            for k in 0..places {
                put(sums.row_mut(i), k, least_sum(self.row(i), other.row(k)));
            }
        }
        Ok(sums)
    }
}

/// The legs of routes over some places. Past the last place of a row stands `FAR`.
#[derive(Drop)]
pub struct LegTables {
    /// The legs from each origin to the places.
    pub collect: Table,
    /// The legs to each destination from the places.
    pub deliver: Table,
    /// The legs from each place to the places.
    pub trunk: Table,
    /// The legs to each place from the places.
    pub trunk_back: Table,
}

impl LegTables {
    /// Legs between `size` nodes and `places` places, all `FAR`.
    pub(crate) fn new(alloc: Global, size: usize, places: usize) -> Result<LegTables, AllocError> {
        Ok(LegTables {
            collect: Table::new(alloc, size, places)?,
            deliver: Table::new(alloc, size, places)?,
            trunk: Table::new(alloc, places, places)?,
            trunk_back: Table::new(alloc, places, places)?,
        })
    }

    /// Sets the transposed trunk legs.
    pub(crate) fn turn(&mut self, places: usize) {
        for k in 0..places {
            for m in 0..places {
                put(self.trunk_back.row_mut(m), k, at(self.trunk.row(k), m));
            }
        }
    }

    /// The same legs over these places alone.
    fn over(&self, alloc: Global, size: usize, places: &[usize]) -> Result<LegTables, AllocError> {
        let mut legs = LegTables::new(alloc, 0, places.len())?;
        legs.collect = self.collect.gathered(alloc, size, places)?;
        legs.deliver = self.deliver.gathered(alloc, size, places)?;
        for (x, k) in places.iter().enumerate() {
            gather(self.trunk.row(*k), places, legs.trunk.row_mut(x));
        }
        legs.turn(places.len());
        Ok(legs)
    }

    /// Returns whether all legs are symmetric.
    pub(crate) fn are_even(&self) -> bool {
        self.collect.cells.as_slice() == self.deliver.cells.as_slice()
            && self.trunk.cells.as_slice() == self.trunk_back.cells.as_slice()
    }
}

/// Distances in the same tables as the legs, in a unit of their own, and the limit. `safe_below` has for each commodity
/// a length below which all of its routes are allowed.
#[derive(Drop)]
pub(crate) struct Distances {
    pub(crate) legs: LegTables,
    pub(crate) limit: u32,
    pub(crate) safe_below: Vec<u32>,
}

/// The legs of an instance over some places, with the least lengths of two legs, and distances where `--max-length`
/// limits routes.
#[derive(Drop)]
pub struct LengthTables {
    /// The number of nodes.
    pub size: usize,
    /// The number of places.
    pub places: usize,
    /// The legs.
    pub legs: LegTables,
    /// From each origin to each place, the least length of collection and trunk leg.
    pub(crate) collect_near: Table,
    /// To each destination from each place, the least length of trunk leg and delivery.
    pub(crate) deliver_near: Table,
    pub(crate) distances: Option<Distances>,
}

impl LengthTables {
    /// The tables of these legs and distances.
    pub(crate) fn of(
        alloc: Global,
        counts: [usize; 2],
        legs: LegTables,
        distances: Option<Distances>,
    ) -> Result<LengthTables, AllocError> {
        let [size, places] = counts;
        Ok(LengthTables {
            size,
            places,
            collect_near: legs
                .collect
                .least_sums(alloc, size, &legs.trunk_back, places)?,
            deliver_near: legs.deliver.least_sums(alloc, size, &legs.trunk, places)?,
            legs,
            distances,
        })
    }

    /// The tables over these places alone, with new indices.
    pub fn over(&self, alloc: Global, places: &[usize]) -> Result<LengthTables, AllocError> {
        let distances = match &self.distances {
            None => None,
            Some(distances) => Some(Distances {
                legs: distances.legs.over(alloc, self.size, places)?,
                limit: distances.limit,
                safe_below: distances.safe_below.to_vec(alloc)?,
            }),
        };
        let legs = self.legs.over(alloc, self.size, places)?;
        LengthTables::of(alloc, [self.size, places.len()], legs, distances)
    }

    /// Returns whether `--max-length` limits routes.
    pub fn has_limit(&self) -> bool {
        self.distances.is_some()
    }
}

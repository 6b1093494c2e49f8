//! The legs of routes, as the caller gives them.

ghost use Rattle.std.specs.Prelude.{◌≡◌, ℕ, ◌+◌, ◌*◌, ◌<◌, ◌≤◌, length, slice_index, All};
ghost use Rattle.unit_duals.specs.Cells.{cell};
ghost use Rattle.unit_duals.specs.Lengths.{UnitLegs, AreLegs, IsLegRow, stops, trunk_leg, last_leg};

use std::marker::Model;

/// The legs of routes per unit of flow, in tables row by row.
///
/// Stops are counted from 0: first the positions of the order, then the hubs.
#[derive(Drop)]
pub struct Legs<'a> {
    size: usize,
    count: usize,
    hubs: usize,
    trunk: &'a [u64],
    last: &'a [u64],
}

impl<'a> Model for Legs<'a> {
    ghost use Rattle.unit_duals.specs.Lengths.{UnitLegs, AreLegs};

    ghost Value = { UnitLegs };

    ghost view = { λ s. record { size = s.size; count = s.count; hubs = s.hubs; trunk = s.trunk.now; last = s.last.now } };

    ghost invariant = { λ s. AreLegs (record { size = s.size; count = s.count; hubs = s.hubs; trunk = s.trunk.now; last = s.last.now }) };
}

impl<'a> Legs<'a> {
    /// The legs from stop to stop (`trunk`) and from stop to destination (`last`), for this many destinations,
    /// positions of the order, and hubs.
    pub fn new(
        size: usize,
        count: usize,
        hubs: usize,
        trunk: &'a [u64],
        last: &'a [u64],
    ) -> Legs<'a>
        requires { AreLegs (record { size = size; count = count; hubs = hubs; trunk = trunk.now; last = last.now }) }
        ensures { result ≡ record { size = size; count = count; hubs = hubs; trunk = trunk.now; last = last.now } }
    {
        Legs {
            size,
            count,
            hubs,
            trunk,
            last,
        }
    }

    /// The number of destinations.
    pub fn size(&self) -> usize
        ensures value { result ≡ self.now.size }
        ensures legs { AreLegs self.now }
    {
        self.size
    }

    /// The number of positions of the order.
    pub fn count(&self) -> usize
        ensures value { result ≡ self.now.count }
        ensures legs { AreLegs self.now }
    {
        self.count
    }

    /// The number of hubs.
    pub fn hubs(&self) -> usize
        ensures value { result ≡ self.now.hubs }
        ensures legs { AreLegs self.now }
    {
        self.hubs
    }

    /// The legs from stop to stop, row by row.
    pub fn trunk(&self) -> &[u64]
        ensures value { result.now ≡ self.now.trunk }
        ensures legs { AreLegs self.now }
    {
        self.trunk
    }

    /// The legs from stop to destination, row by row.
    pub fn last(&self) -> &[u64]
        ensures value { result.now ≡ self.now.last }
        ensures legs { AreLegs self.now }
    {
        self.last
    }

    /// The number of stops.
    pub fn stops(&self) -> usize
        ensures value { result ≡ stops self.now }
        ensures legs { AreLegs self.now }
    {
        self.count + self.hubs
    }

    /// The stop that is the hub number `x`.
    pub(crate) fn hub(&self, x: usize) -> usize
        requires { x < self.now.hubs }
        ensures { result ≡ self.now.count + x }
    {
        self.count + x
    }

    /// The legs from the stop to each stop.
    pub(crate) fn trunk_row(&self, k: usize) -> &[u64]
        requires { k < stops self.now }
        ensures { IsLegRow (stops self.now) (trunk_leg self.now k) result.now }
    {
        row(self.trunk, k, self.count + self.hubs)
    }

    /// The legs from the stop to each destination.
    pub(crate) fn last_row(&self, k: usize) -> &[u64]
        requires { k < stops self.now }
        ensures { IsLegRow self.now.size (last_leg self.now k) result.now }
    {
        row(self.last, k, self.size)
    }
}

/// Row `t` of a table with `n` columns.
pub fn row(table: &[u64], t: usize, n: usize) -> &[u64]
    requires { t * n + n ≤ length table.now }
    ensures long { length result.now ≡ n }
    ensures each { (j : ℕ) → j < n → slice_index result.now j ≡ cell n table.now t j }
    ensures limit { (most : ℕ) → All (λ d. d ≤ most) table.now → All (λ d. d ≤ most) result.now }
{
    let start = t * n;
    &table[start..start + n]
}

//! The tables that a cut needs once.

ghost use Rattle.std.specs.Prelude.{◌≡◌, ℕ, ◌+◌, ◌*◌, ◌<◌, ◌≤◌, length, slice_index, IfOk, vec_len, vec_capacity};
ghost use Rattle.unit_duals.specs.Limits.{most_room};
ghost use Rattle.unit_duals.specs.Cells.{IsTable};
ghost use Rattle.unit_duals.specs.Lengths.{AreLegs, IsLegRow, stops, no_legs, trunk_leg, last_leg};
ghost use Rattle.unit_duals.specs.Values.{back_leg};
ghost use Rattle.unit_duals.specs.Nearness.{HoldsNear, IsNoShorterForth, IsNoShorterHome};

use crate::Legs;
use crate::filling::{copy, fit, set_back, set_turned};
use crate::legs::row;
use crate::nearby::NearLists;
use std::alloc::{AllocError, Global};
use std::marker::Model;

/// The tables of a cut, seen as the legs from which they are made. The workspace is allocated once.
///
/// They are only read while the duals of origins are computed, so several workers may share them.
#[derive(Drop)]
pub struct Tables {
    room: usize,
    size: usize,
    count: usize,
    hubs: usize,
    trunk: Vec<u64>,
    turned: Vec<u64>,
    last: Vec<u64>,
    back: Vec<u64>,
    straight: Vec<u64>,
    column: Vec<u64>,
    forth: NearLists,
    home: NearLists,
}

impl Model for Tables {
    ghost use Rattle.unit_duals.specs.Lengths.{RoomedLegs};

    ghost Value = { RoomedLegs };

    ghost use Rattle.unit_duals.specs.TableParts.{table_legs, AreTableParts};

    ghost view = { λ s. record { room = s.room; legs = table_legs s } };

    ghost invariant = { AreTableParts };
}

impl Tables {
    /// An empty workspace for at most `room` destinations and at most `room` stops.
    pub fn new(alloc: Global, room: usize) -> Result<Tables, AllocError>
        requires { room ≤ most_room }
        ensures { IfOk result (λ t. t ≡ record { room = room; legs = no_legs }) }
    {
        Ok(Tables {
            room,
            size: 0,
            count: 0,
            hubs: 0,
            trunk: Vec::with_capacity(alloc, room * room)?,
            turned: Vec::with_capacity(alloc, room * room)?,
            last: Vec::with_capacity(alloc, room * room)?,
            back: Vec::with_capacity(alloc, room * room)?,
            straight: Vec::with_capacity(alloc, room)?,
            column: Vec::with_capacity(alloc, room)?,
            forth: NearLists::new(alloc, room)?,
            home: NearLists::new(alloc, room)?,
        })
    }

    /// Fills the tables for the legs. It allocates nothing.
    pub fn fill(&mut self, legs: &Legs)
        requires size { legs.now.size ≤ self.old.room }
        requires stops { stops legs.now ≤ self.old.room }
        ensures room { self.new.room ≡ self.old.room }
        ensures legs { self.new.legs ≡ legs.now }
    {
        self.size = legs.size();
        self.count = legs.count();
        self.hubs = legs.hubs();
        copy(legs.trunk(), &mut self.trunk);
        copy(legs.last(), &mut self.last);
        fit(&mut self.turned, legs.trunk().len(), 0);
        fit(&mut self.back, legs.last().len(), 0);
        fit(&mut self.straight, legs.stops(), 0);
        fit(&mut self.column, legs.stops(), 0);
        set_turned(legs, &mut self.turned);
        set_back(
            legs,
            &self.turned,
            &mut self.straight,
            &mut self.column,
            &mut self.back,
        );
        self.forth.set_forth(legs, &self.back);
        self.home.set_home(legs, &self.back);
    }

    /// The number of destinations.
    pub fn size(&self) -> usize
        ensures value { result ≡ self.now.legs.size }
        ensures legs { AreLegs self.now.legs }
    {
        self.size
    }

    /// The number of positions of the order.
    pub fn count(&self) -> usize
        ensures value { result ≡ self.now.legs.count }
        ensures legs { AreLegs self.now.legs }
    {
        self.count
    }

    /// The number of hubs.
    pub fn hubs(&self) -> usize
        ensures value { result ≡ self.now.legs.hubs }
        ensures legs { AreLegs self.now.legs }
    {
        self.hubs
    }

    /// The number of stops.
    pub fn stops(&self) -> usize
        ensures value { result ≡ stops self.now.legs }
        ensures legs { AreLegs self.now.legs }
    {
        self.count + self.hubs
    }

    /// The stop that is the hub number `x`.
    pub(crate) fn hub(&self, x: usize) -> usize
        requires { x < self.now.legs.hubs }
        ensures { result ≡ self.now.legs.count + x }
    {
        self.count + x
    }

    /// The legs from stop to stop, row by row.
    pub(crate) fn trunk(&self) -> &[u64]
        ensures value { result.now ≡ self.now.legs.trunk }
        ensures legs { AreLegs self.now.legs }
    {
        &self.trunk
    }

    /// The least lengths from stop to destination, straight or by a hub, row by row.
    pub(crate) fn back(&self) -> &[u64]
        ensures long { length result.now ≡ stops self.now.legs * self.now.legs.size }
        ensures back { let l = self.now.legs in IsTable l.size (λ k j v. v ≡ back_leg l k j) result.now (length result.now) }
        ensures legs { AreLegs self.now.legs }
    {
        &self.back
    }

    /// The legs from the stop to each stop.
    pub(crate) fn trunk_row(&self, k: usize) -> &[u64]
        requires { k < stops self.now.legs }
        ensures { IsLegRow (stops self.now.legs) (trunk_leg self.now.legs k) result.now }
    {
        row(&self.trunk, k, self.count + self.hubs)
    }

    /// The legs to the stop from each stop.
    pub(crate) fn turned_row(&self, k: usize) -> &[u64]
        requires { k < stops self.now.legs }
        ensures { IsLegRow (stops self.now.legs) (λ m. trunk_leg self.now.legs m k) result.now }
    {
        row(&self.turned, k, self.count + self.hubs)
    }

    /// The legs from the stop to each destination.
    pub(crate) fn last_row(&self, k: usize) -> &[u64]
        requires { k < stops self.now.legs }
        ensures { IsLegRow self.now.legs.size (last_leg self.now.legs k) result.now }
    {
        row(&self.last, k, self.size)
    }

    /// The least lengths from the stop to each destination, straight or by a hub.
    pub(crate) fn back_row(&self, k: usize) -> &[u64]
        requires { k < stops self.now.legs }
        ensures { IsLegRow self.now.legs.size (back_leg self.now.legs k) result.now }
    {
        row(&self.back, k, self.size)
    }

    /// The destinations to which the way from `t` by the earlier place `e` is shorter than the least from `t` on.
    pub(crate) fn near_forth(&self, t: usize, e: usize) -> &[u8]
        requires place { t < self.now.legs.count }
        requires earlier { e < t }
        ensures { HoldsNear self.now.legs.size (IsNoShorterForth self.now.legs t e) result.now }
    {
        self.forth.list(t * self.count + e)
    }

    /// The destinations to which the way from the earlier place `e` by `t` is shorter than the least from `e` on.
    pub(crate) fn near_home(&self, t: usize, e: usize) -> &[u8]
        requires place { t < self.now.legs.count }
        requires earlier { e < t }
        ensures { HoldsNear self.now.legs.size (IsNoShorterHome self.now.legs t e) result.now }
    {
        self.home.list(t * self.count + e)
    }
}

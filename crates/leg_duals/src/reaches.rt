//! The stops by which each stop is reached, so that dominated routes to it are skipped.

ghost use Rattle.std.specs.Prelude.{◌≡◌, ℕ, ◌+◌, ◌*◌, ◌<◌, ◌≤◌, ◌⊎◌, [], length, slice_index, All, IfOk, IsTrue, vec_len, vec_capacity};
ghost use Rattle.unit_duals.specs.Limits.{most_room};
ghost use Rattle.leg_duals.specs.Ways.{IsWay, IsWayBeside, stop_count, no_way};
ghost use Rattle.leg_duals.specs.Lowered.{IsLoweredOrSpared, IsReached, AreReached, IsSpared};

use crate::Ways;
use std::alloc::{AllocError, Global};
use std::marker::Model;

/// For each stop a hub or the stop itself, as the first stop of a short way to it, and how long and how far that way is;
/// with the room that was taken for so many stops.
#[derive(Drop)]
pub(crate) struct Reaches {
    room: usize,
    by: Vec<usize>,
    bases: Vec<u64>,
    aways: Vec<u64>,
}

impl Model for Reaches {
    ghost use Rattle.leg_duals.specs.Lowered.{ReachParts};
    ghost use Rattle.leg_duals.specs.ReachRoom.{HasReachRoom};

    ghost Value = { ReachParts };

    ghost view = { λ s. record { room = s.room; by = s.by.items; bases = s.bases.items; aways = s.aways.items } };

    ghost invariant = { HasReachRoom };
}

/// The first stop of a way to a stop, and how long and how far that way is.
#[derive(Clone, Copy)]
struct Reach {
    by: usize,
    base: u64,
    away: u64,
}

impl Reaches {
    /// Reaches with this room, as yet of no stop.
    pub(crate) fn new(alloc: Global, room: usize) -> Result<Reaches, AllocError>
        requires { room ≤ most_room }
        ensures { IfOk result (λ r. r.room ≡ room) }
    {
        Ok(Reaches {
            room,
            by: Vec::with_capacity(alloc, room)?,
            bases: Vec::with_capacity(alloc, room)?,
            aways: Vec::with_capacity(alloc, room)?,
        })
    }

    /// Makes these the reaches of the stops. It takes no memory.
    pub(crate) fn fill(&mut self, ways: &Ways)
        requires { stop_count ways.now ≤ self.old.room }
        ensures room { self.new.room ≡ self.old.room }
        ensures reached { AreReached ways.now self.new }
    {
        fit(&mut self.by, ways.stops(), 0);
        fit(&mut self.bases, ways.stops(), 0);
        fit(&mut self.aways, ways.stops(), 0);
        set_reaches(ways, &mut self.by, &mut self.bases, &mut self.aways);
    }

    /// Lowers the numbers of the destinations to the lengths of the ways by `k` first and `m` last, where these are not
    /// too far. They are left as they are where the stop `m` is reached as well by another.
    pub(crate) fn lower(&self, ways: &Ways, k: usize, m: usize, items: &mut [u64])
        requires reached { AreReached ways.now self.now }
        requires first { k < stop_count ways.now }
        requires last { m < stop_count ways.now }
        requires long { length items.old ≡ ways.now.size }
        requires limit { All (λ d. d ≤ no_way) items.old }
        ensures lowered { IsLoweredOrSpared ways.now.size (IsSpared ways.now self.now k m) (IsWay ways.now k m) items.old items.new }
        ensures limit { All (λ d. d ≤ no_way) items.new }
    {
        if !self.spares(ways, k, m) {
            ways.lower(k, m, items);
        }
    }

    /// The same with what stands beside each way.
    pub(crate) fn lower_beside(
        &self,
        ways: &Ways,
        k: usize,
        m: usize,
        beside: &[u64],
        items: &mut [u64],
    )
        requires reached { AreReached ways.now self.now }
        requires first { k < stop_count ways.now }
        requires last { m < stop_count ways.now }
        requires beside_long { length beside.now ≡ ways.now.size }
        requires beside { All (λ d. d ≤ no_way) beside.now }
        requires long { length items.old ≡ ways.now.size }
        requires limit { All (λ d. d ≤ no_way) items.old }
        ensures lowered { IsLoweredOrSpared ways.now.size (IsSpared ways.now self.now k m)
            (IsWayBeside ways.now (slice_index beside.now) k m) items.old items.new }
        ensures limit { All (λ d. d ≤ no_way) items.new }
    {
        if !self.spares(ways, k, m) {
            ways.lower_beside(k, m, beside, items);
        }
    }

    // Tells whether the stop `m` is reached by another stop than `k` as well as by it.
    fn spares(&self, ways: &Ways, k: usize, m: usize) -> bool
        requires reached { AreReached ways.now self.now }
        requires first { k < stop_count ways.now }
        requires last { m < stop_count ways.now }
        ensures { IsTrue result → IsSpared ways.now self.now k m }
    {
        if self.by[m] == k {
            return false;
        }
        self.bases[m] <= ways.base(k, m) && self.aways[m] <= ways.away(k, m)
    }
}

/// Sets by which stop each stop is reached, and how long and how far that way is.
fn set_reaches(ways: &Ways, by: &mut [usize], bases: &mut [u64], aways: &mut [u64])
    requires by_long { length by.old ≡ stop_count ways.now }
    requires bases_long { length bases.old ≡ stop_count ways.now }
    requires aways_long { length aways.old ≡ stop_count ways.now }
    ensures { (m : ℕ) → m < stop_count ways.now
        → IsReached ways.now m (slice_index by.new m) (slice_index bases.new m) (slice_index aways.new m) }
{
    for m in 0..ways.stops() {
        let reach = reach_of(ways, m);
        by[m] = reach.by;
        bases[m] = reach.base;
        aways[m] = reach.away;
    }
}

/// The shortest way to the stop by a hub or by itself.
fn reach_of(ways: &Ways, m: usize) -> Reach
    requires { m < stop_count ways.now }
    ensures { IsReached ways.now m result.by result.base result.away }
{
    let mut by = m;
    let mut base = ways.base(m, m);
    for x in 0..ways.hubs() {
        let k = ways.count() + x;
        let length = ways.base(k, m);
        if length < base {
            base = length;
            by = k;
        }
    }
    Reach {
        by,
        base,
        away: ways.away(by, m),
    }
}

/// Gives the vector this length, within its room.
pub(crate) fn fit<T: Copy + Drop>(items: &mut Vec<T>, len: usize, filler: T)
    requires { len ≤ vec_capacity items.old }
    ensures len { vec_len items.new ≡ len }
    ensures room { vec_capacity items.old ≤ vec_capacity items.new }
{
    // It succeeds, since the room was taken when the vector was made.
    let _ = items.resize(len, filler);
}

//! The shortest routes through hubs.
//!
//! The best last hub depends only on the first hub and the destination. It is found once for these two, so each route
//! takes one pass over the first hubs.

ghost use Rattle.std.specs.Prelude.{◌≡◌, ◌+◌, ◌*◌, ◌<◌, ◌≤◌, length, IfOk};
ghost use Rattle.unit_duals.specs.Limits.{most_leg, most_room};
ghost use Rattle.unit_duals.specs.Lengths.{AreLegs, AreFirstLegs, no_legs, stops, way};
ghost use Rattle.unit_duals.specs.Leasts.{IsFirstLeast};
ghost use Rattle.unit_duals.specs.Hops.{hop_by, least_hop, AreBestHops, AreHopLengths, IsFirstRoute};

use crate::Legs;
use crate::filling::{copy, fit};
use std::alloc::{AllocError, Global};
use std::marker::Model;

/// The first and last hub of a route, as stops, and its length.
#[derive(Clone, Copy, Debug, PartialEq, Eq)]
pub struct HubRoute {
    pub first: usize,
    pub last: usize,
    pub length: u64,
}

/// The number of a last hub, and the length from a first hub by it to a destination.
#[derive(Clone, Copy)]
struct Hop {
    last: usize,
    length: u64,
}

/// The best last hub for each first hub and destination, seen as the legs from which it was found. The workspace is
/// allocated once.
#[derive(Drop)]
pub struct Hops {
    room: usize,
    size: usize,
    count: usize,
    hubs: usize,
    trunk: Vec<u64>,
    last: Vec<u64>,
    lasts: Vec<u32>,
    lengths: Vec<u64>,
}

impl Model for Hops {
    ghost use Rattle.unit_duals.specs.Lengths.{RoomedLegs};

    ghost Value = { RoomedLegs };

    ghost use Rattle.unit_duals.specs.HopParts.{hop_legs, AreHopParts};

    ghost view = { λ s. record { room = s.room; legs = hop_legs s } };

    ghost invariant = { AreHopParts };
}

impl Hops {
    /// An empty workspace for at most `room` destinations and at most `room` stops.
    pub fn new(alloc: Global, room: usize) -> Result<Hops, AllocError>
        requires { room ≤ most_room }
        ensures { IfOk result (λ h. h ≡ record { room = room; legs = no_legs }) }
    {
        Ok(Hops {
            room,
            size: 0,
            count: 0,
            hubs: 0,
            trunk: Vec::with_capacity(alloc, room * room)?,
            last: Vec::with_capacity(alloc, room * room)?,
            lasts: Vec::with_capacity(alloc, room * room)?,
            lengths: Vec::with_capacity(alloc, room * room)?,
        })
    }

    /// Fills this for the legs. It allocates nothing.
    pub fn fill(&mut self, legs: &Legs)
        requires size { legs.now.size ≤ self.old.room }
        requires stops { stops legs.now ≤ self.old.room }
        ensures room { self.new.room ≡ self.old.room }
        ensures legs { self.new.legs ≡ legs.now }
    {
        let cells = legs.hubs() * legs.size();
        self.size = legs.size();
        self.count = legs.count();
        self.hubs = legs.hubs();
        copy(legs.trunk(), &mut self.trunk);
        copy(legs.last(), &mut self.last);
        fit(&mut self.lasts, cells, 0);
        fit(&mut self.lengths, cells, 0);
        set_hops(legs, &mut self.lasts, &mut self.lengths);
    }

    /// The shortest route through hubs from the origin whose legs to the stops are `first` to destination `j`. Ties go
    /// to the earliest first hub, then to the earliest last hub.
    pub fn route(&self, first: &[u64], j: usize) -> HubRoute
        requires some_hub { 1 ≤ self.now.legs.hubs }
        requires first { AreFirstLegs self.now.legs first.now }
        requires destination { j < self.now.legs.size }
        ensures route { IsFirstRoute self.now.legs first.now j result.first result.last }
        ensures length { result.length ≡ way self.now.legs first.now result.first result.last j }
    {
        let mut best = 0;
        let mut least = first[self.count] + self.hop(0, j).length;
        for x in 1..self.hubs {
            let length = first[self.count + x] + self.hop(x, j).length;
            if length < least {
                least = length;
                best = x;
            }
        }
        HubRoute {
            first: self.count + best,
            last: self.count + self.hop(best, j).last,
            length: least,
        }
    }

    /// The best route end from the hub number `x` to the destination.
    fn hop(&self, x: usize, j: usize) -> Hop
        requires hub { x < self.now.legs.hubs }
        requires destination { j < self.now.legs.size }
        ensures last { IsFirstLeast (hop_by self.now.legs x j) self.now.legs.hubs result.last }
        ensures length { result.length ≡ least_hop self.now.legs x j }
        ensures limit { result.length ≤ 2 * most_leg }
        ensures legs { AreLegs self.now.legs }
    {
        let at = x * self.size + j;
        Hop {
            last: self.lasts[at] as usize,
            length: self.lengths[at],
        }
    }
}

/// Finds the best route end from each hub to each destination.
fn set_hops(legs: &Legs, lasts: &mut [u32], lengths: &mut [u64])
    requires lasts { length lasts.old ≡ legs.now.hubs * legs.now.size }
    requires lengths { length lengths.old ≡ legs.now.hubs * legs.now.size }
    ensures lasts { AreBestHops legs.now lasts.new }
    ensures lengths { AreHopLengths legs.now lengths.new }
{
    let size = legs.size();
    for x in 0..legs.hubs() {
        for j in 0..size {
            let hop = best_hop(legs, x, j);
            lasts[x * size + j] = hop.last as u32;
            lengths[x * size + j] = hop.length;
        }
    }
}

/// The first of the shortest route ends from the hub number `x` to the destination.
fn best_hop(legs: &Legs, x: usize, j: usize) -> Hop
    requires hub { x < legs.now.hubs }
    requires destination { j < legs.now.size }
    ensures last { IsFirstLeast (hop_by legs.now x j) legs.now.hubs result.last }
    ensures length { result.length ≡ least_hop legs.now x j }
    ensures few { result.last < most_room }
{
    let mut last = 0;
    let mut least = hop_length(legs, x, j, 0);
    for y in 1..legs.hubs() {
        let by_this = hop_length(legs, x, j, y);
        if by_this < least {
            least = by_this;
            last = y;
        }
    }
    Hop {
        last,
        length: least,
    }
}

/// The length from the hub number `x` by the hub number `y` to the destination.
fn hop_length(legs: &Legs, x: usize, j: usize, y: usize) -> u64
    requires hub { x < legs.now.hubs }
    requires destination { j < legs.now.size }
    requires last { y < legs.now.hubs }
    ensures { result ≡ hop_by legs.now x j y }
{
    let m = legs.hub(y);
    legs.trunk_row(legs.hub(x))[m] + legs.last_row(m)[j]
}

//! The routes from one origin by stops.

ghost use Rattle.std.specs.Prelude.{◌≡◌, ℕ, ◌+◌, ◌*◌, ◌^◌, ◌<◌, ◌≤◌, length, slice_index, All};
ghost use Rattle.hub_spec.specs.Limits.{most_nodes, most_distance, most_length};
ghost use Rattle.hub_spec.specs.Problem.{distance, IsProblem};
ghost use Rattle.hub_spec.specs.Plans.{IsHubSet};
ghost use Rattle.hub_spec.specs.Separation.{IsOrder};
ghost use Rattle.unit_duals.specs.Limits.{most_leg, most_room};
ghost use Rattle.leg_duals.specs.StopLegs.{stop_node, AreLegsOf, AreFirstLegsOf};
ghost use Rattle.leg_duals.specs.Ways.{IsWay, IsWayBeside, base, away, delivery, rest, node_of, stop_count, longest_way, no_way};
ghost use Rattle.leg_duals.specs.Lowered.{IsLowered};
ghost use Rattle.leg_duals.specs.Parts.{AreWays};

use crate::Stops;
use crate::lowering::{lower, lower_beside};
use hub_model::{Instance, MOST_LENGTH};
use std::marker::Model;
use unit_duals::Legs;

/// The routes from one origin to some destinations, by the stops of an order and a hub set. The legs give their lengths
/// per unit of flow, and the instance their distances.
#[derive(Drop)]
pub struct Ways<'a> {
    instance: &'a Instance,
    hubs: &'a [u32],
    order: &'a [u32],
    start: u32,
    origin: u32,
    legs: &'a Legs<'a>,
    first: &'a [u64],
    most: u64,
}

impl<'a> Model for Ways<'a> {
    ghost use Rattle.leg_duals.specs.Ways.{WaysFrom};
    ghost use Rattle.leg_duals.specs.Parts.{held_ways, AreWayParts};

    ghost Value = { WaysFrom };

    ghost view = { held_ways };

    ghost invariant = { AreWayParts };
}

impl<'a> Ways<'a> {
    /// The routes from the node `origin` by the stops, to the destinations of the legs, from `start` on.
    /// `first` has the legs from the origin to the stops.
    pub fn new(
        instance: &'a Instance,
        stops: Stops<'a>,
        start: u32,
        origin: u32,
        legs: &'a Legs<'a>,
        first: &'a [u64],
    ) -> Ways<'a>
        requires set { IsHubSet instance.now stops.hubs.now }
        requires order { IsOrder instance.now stops.hubs.now stops.order.now }
        requires origin { origin < instance.now.size }
        requires legs { AreLegsOf instance.now stops.hubs.now stops.order.now start legs.now }
        requires first { AreFirstLegsOf instance.now stops.hubs.now stops.order.now origin first.now }
        ensures { let stops = stops.entry in result ≡ record {
          problem = instance.now;
          hubs = stops.hubs.now;
          order = stops.order.now;
          start = start;
          size = legs.now.size;
          origin = origin;
        } }
    {
        let most = longest(instance);
        let Stops { hubs, order } = stops;
        Ways {
            instance,
            hubs,
            order,
            start,
            origin,
            legs,
            first,
            most,
        }
    }

    /// The number of destinations.
    pub(crate) fn size(&self) -> usize
        ensures value { result ≡ self.now.size }
        ensures ways { AreWays self.now }
    {
        self.legs.size()
    }

    /// The number of places.
    pub(crate) fn count(&self) -> usize
        ensures value { result ≡ length self.now.order }
        ensures ways { AreWays self.now }
    {
        self.order.len()
    }

    /// The number of hubs.
    pub(crate) fn hubs(&self) -> usize
        ensures value { result ≡ length self.now.hubs }
        ensures ways { AreWays self.now }
    {
        self.hubs.len()
    }

    /// The number of stops.
    pub(crate) fn stops(&self) -> usize
        ensures value { result ≡ stop_count self.now }
        ensures ways { AreWays self.now }
    {
        self.order.len() + self.hubs.len()
    }

    /// The length from the origin by the stop `k` to the stop `m`, by unit of flow.
    pub(crate) fn base(&self, k: usize, m: usize) -> u64
        requires first { k < stop_count self.now }
        requires last { m < stop_count self.now }
        ensures value { result ≡ base self.now k m }
        ensures limit { result ≤ 2 * most_leg }
    {
        let stops = self.order.len() + self.hubs.len();
        self.first[k] + self.legs.trunk()[k * stops + m]
    }

    /// How far it is from the origin by the stop `k` to the stop `m`.
    pub(crate) fn away(&self, k: usize, m: usize) -> u64
        requires first { k < stop_count self.now }
        requires last { m < stop_count self.now }
        ensures value { result ≡ away self.now k m }
        ensures limit { result ≤ 2 * most_distance }
    {
        let first = node(self.hubs, self.order, k);
        let last = node(self.hubs, self.order, m);
        self.instance.distance_between(self.origin, first)
            + self.instance.distance_between(first, last)
    }

    /// Lowers the numbers of the destinations to the lengths of the ways by the stop `k` first and `m` last, where these
    /// are not too far.
    pub(crate) fn lower(&self, k: usize, m: usize, items: &mut [u64])
        requires first { k < stop_count self.now }
        requires last { m < stop_count self.now }
        requires long { length items.old ≡ self.now.size }
        requires limit { All (λ d. d ≤ no_way) items.old }
        ensures lowered { IsLowered self.now.size (IsWay self.now k m) (slice_index items.old) (slice_index items.new) }
        ensures limit { All (λ d. d ≤ no_way) items.new }
    {
        let away = self.away(k, m);
        if away <= self.most {
            lower(
                items,
                self.base(k, m),
                self.last_row(m),
                self.rest_row(m),
                self.most - away,
            );
        }
    }

    /// The same with what stands beside each way.
    pub(crate) fn lower_beside(&self, k: usize, m: usize, beside: &[u64], items: &mut [u64])
        requires first { k < stop_count self.now }
        requires last { m < stop_count self.now }
        requires beside_long { length beside.now ≡ self.now.size }
        requires beside { All (λ d. d ≤ no_way) beside.now }
        requires long { length items.old ≡ self.now.size }
        requires limit { All (λ d. d ≤ no_way) items.old }
        ensures lowered { IsLowered self.now.size (IsWayBeside self.now (slice_index beside.now) k m) (slice_index items.old) (slice_index items.new) }
        ensures limit { All (λ d. d ≤ no_way) items.new }
    {
        let away = self.away(k, m);
        if away <= self.most {
            lower_beside(
                items,
                self.base(k, m),
                self.last_row(m),
                beside,
                self.rest_row(m),
                self.most - away,
            );
        }
    }

    // The lengths from the stop to the destinations.
    fn last_row(&self, m: usize) -> &[u64]
        requires { m < stop_count self.now }
        ensures long { length result.now ≡ self.now.size }
        ensures each { (j : ℕ) → j < self.now.size → slice_index result.now j ≡ delivery self.now m j }
        ensures limit { All (λ d. d ≤ most_leg) result.now }
    {
        let size = self.legs.size();
        stretch(self.legs.last(), m * size, size)
    }

    // How far it is from the stop to the destinations.
    fn rest_row(&self, m: usize) -> &[u64]
        requires { m < stop_count self.now }
        ensures long { length result.now ≡ self.now.size }
        ensures each { (j : ℕ) → j < self.now.size → slice_index result.now j ≡ rest self.now m j }
        ensures limit { All (λ d. d ≤ most_distance) result.now }
    {
        let nodes = self.instance.size() as usize;
        let at = node(self.hubs, self.order, m) as usize * nodes + self.start as usize;
        stretch(self.instance.distances(), at, self.legs.size())
    }
}

/// How far a route may be; where that is not limited, no less than any is.
fn longest(instance: &Instance) -> u64
    ensures value { result ≡ longest_way instance.now.longest }
    ensures limit { result ≤ most_length }
    ensures problem { IsProblem instance.now }
{
    match instance.length_limit() {
        Some(most) => most,
        None => MOST_LENGTH,
    }
}

/// The node of the stop.
fn node(hubs: &[u32], order: &[u32], k: usize) -> u32
    requires { k < length order.now + length hubs.now }
    ensures { result ≡ stop_node hubs.now order.now k }
{
    if k < order.len() {
        order[k]
    } else {
        hubs[k - order.len()]
    }
}

/// So many of the numbers, from `at` on.
fn stretch(numbers: &[u64], at: usize, n: usize) -> &[u64]
    requires { at + n ≤ length numbers.now }
    ensures long { length result.now ≡ n }
    ensures each { (j : ℕ) → j < n → slice_index result.now j ≡ slice_index numbers.now (at + j) }
    ensures limit { (most : ℕ) → All (λ d. d ≤ most) numbers.now → All (λ d. d ≤ most) result.now }
{
    &numbers[at..at + n]
}

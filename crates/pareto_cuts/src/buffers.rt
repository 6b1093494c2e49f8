//! A dual as a line of a certificate lists it, in a buffer that is used again.

ghost use Rattle.std.specs.Prelude.{◌≡◌, ◌+◌, ◌*◌, ◌<◌, ◌≤◌, [], pos, length, slice_index, All, IfOk, vec_len, vec_capacity};
ghost use Rattle.hub_spec.specs.Limits.{most_cost};
ghost use Rattle.hub_spec.specs.Separation.{minimal_dual, values_listed, AreListedValues};
ghost use Rattle.hub_model.specs.Prices.{signed_values, AreSignedPrices};
ghost use Rattle.pareto_cuts.specs.UnitCosts.{AreDualsFrom, AreValuesOf};

use crate::flows::{flows_from, set_column};
use crate::{OriginScratch, Separation};
use hub_model::{list_values, signed};
use std::alloc::{AllocError, Global};
use std::marker::Model;

/// A buffer for one dual: the last that was made.
#[derive(Drop)]
pub struct DualBuffer {
    room: usize,
    by_node: Vec<u128>,
    a: i128,
    u: Vec<(u32, i128)>,
}

impl Model for DualBuffer {
    ghost use Rattle.pareto_cuts.specs.Buffers.{RoomedDual, held_dual, IsBuffer};

    ghost Value = { RoomedDual };

    ghost view = { λ s. record { room = s.room; dual = held_dual s } };

    ghost invariant = { IsBuffer };
}

impl DualBuffer {
    /// A buffer for at most `room` nodes, with the zero dual.
    pub fn new(alloc: Global, room: usize) -> Result<DualBuffer, AllocError>
        ensures { IfOk result (λ b. b ≡ record { room = room; dual = record { a = 0; u = [] } }) }
    {
        Ok(DualBuffer {
            room,
            by_node: Vec::with_capacity(alloc, room)?,
            a: 0,
            u: Vec::with_capacity(alloc, room)?,
        })
    }

    /// Makes the dual of the commodity from `i` to destination number `j` of the separation. `duals` has the duals
    /// computed for `i`. It allocates nothing.
    pub fn make(&mut self, separation: &Separation, duals: &OriginScratch, i: u32, j: usize)
        requires origin { i < separation.now.problem.size }
        requires destination { j < separation.now.legs.size }
        requires duals { AreDualsFrom separation.now i duals.now.prices duals.now.values }
        requires room { separation.now.problem.size ≤ self.old.room }
        ensures room { self.new.room ≡ self.old.room }
        ensures dual { let s = separation.now in self.new.dual ≡ minimal_dual s.problem s.hubs s.order (i, s.start + j) }
    {
        self.a = make_dual(separation, duals, i, j, &mut self.by_node, &mut self.u);
    }

    /// The price, and the nodes with their values, ascending, each value above 0. All are in 10^-12.
    pub fn dual(&self) -> (i128, &[(u32, i128)])
        ensures price { result.0 ≡ pos self.now.dual.a }
        ensures values { result.1.now ≡ signed_values self.now.dual.u }
        ensures listed { AreListedValues self.now.dual.u }
    {
        (self.a, &self.u)
    }
}

// The price of the commodity; its values are put into `u`.
fn make_dual(
    separation: &Separation,
    duals: &OriginScratch,
    i: u32,
    j: usize,
    by_node: &mut Vec<u128>,
    u: &mut Vec<(u32, i128)>,
) -> i128
    requires origin { i < separation.now.problem.size }
    requires destination { j < separation.now.legs.size }
    requires duals { AreDualsFrom separation.now i duals.now.prices duals.now.values }
    requires values_room { separation.now.problem.size ≤ vec_capacity by_node.old }
    requires pairs_room { separation.now.problem.size ≤ vec_capacity u.old }
    ensures values_room { vec_capacity by_node.old ≤ vec_capacity by_node.new }
    ensures pairs_room { vec_capacity u.old ≤ vec_capacity u.new }
    ensures price { let s = separation.now in result ≡ pos (minimal_dual s.problem s.hubs s.order (i, s.start + j)).a }
    ensures values { let s = separation.now in u.new.items ≡ signed_values (minimal_dual s.problem s.hubs s.order (i, s.start + j)).u }
    ensures signed { AreSignedPrices result u.new.items }
{
    clear_values(by_node, separation.instance().size() as usize);
    fill_dual(separation, duals, i, j, by_node, u)
}

// The same, where no node has a value.
fn fill_dual(
    separation: &Separation,
    duals: &OriginScratch,
    i: u32,
    j: usize,
    by_node: &mut [u128],
    u: &mut Vec<(u32, i128)>,
) -> i128
    requires origin { i < separation.now.problem.size }
    requires destination { j < separation.now.legs.size }
    requires duals { AreDualsFrom separation.now i duals.now.prices duals.now.values }
    requires long { length by_node.old ≡ separation.now.problem.size }
    requires none { All (λ v. v ≡ 0) by_node.old }
    requires pairs_room { separation.now.problem.size ≤ vec_capacity u.old }
    ensures pairs_room { vec_capacity u.old ≤ vec_capacity u.new }
    ensures price { let s = separation.now in result ≡ pos (minimal_dual s.problem s.hubs s.order (i, s.start + j)).a }
    ensures values { let s = separation.now in u.new.items ≡ signed_values (minimal_dual s.problem s.hubs s.order (i, s.start + j)).u }
    ensures signed { AreSignedPrices result u.new.items }
{
    let prices = duals.prices();
    let values = duals.values();
    set_values(separation, prices, values, i, j, by_node);
    list_values(separation.candidates(), by_node, u);
    price_of(separation, prices, values, i, j)
}

// The price of the commodity.
fn price_of(separation: &Separation, prices: &[u64], values: &[u64], i: u32, j: usize) -> i128
    requires origin { i < separation.now.problem.size }
    requires destination { j < separation.now.legs.size }
    requires duals { AreDualsFrom separation.now i prices.now values.now }
    ensures { let s = separation.now in result ≡ pos (minimal_dual s.problem s.hubs s.order (i, s.start + j)).a }
{
    let flow = flows_from(separation.instance(), i, separation.start(), prices.len())[j];
    signed(flow as u128 * prices[j] as u128)
}

// Sets the values of the nodes for the commodity, where none has one.
fn set_values(
    separation: &Separation,
    prices: &[u64],
    values: &[u64],
    i: u32,
    j: usize,
    by_node: &mut [u128],
)
    requires origin { i < separation.now.problem.size }
    requires destination { j < separation.now.legs.size }
    requires duals { AreDualsFrom separation.now i prices.now values.now }
    requires long { length by_node.old ≡ separation.now.problem.size }
    requires none { All (λ v. v ≡ 0) by_node.old }
    ensures { AreValuesOf separation.now i j by_node.new }
{
    let size = prices.len();
    let flow = flows_from(separation.instance(), i, separation.start(), size)[j];
    set_column(separation.order(), values, size, j, flow, by_node);
}

// Makes each value 0, as many as there are nodes.
fn clear_values(by_node: &mut Vec<u128>, size: usize)
    requires { size ≤ vec_capacity by_node.old }
    ensures len { length by_node.new.items ≡ size }
    ensures none { All (λ v. v ≡ 0) by_node.new.items }
    ensures room { vec_capacity by_node.old ≤ vec_capacity by_node.new }
{
    by_node.clear();
    // It succeeds, since the room was taken when the vector was made.
    let _ = by_node.resize(size, 0);
}

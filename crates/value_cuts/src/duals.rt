//! The duals of any dual values, one by one.

ghost use Rattle.std.specs.Prelude.{◌≡◌, ◌+◌, ◌*◌, ◌<◌, ◌≤◌, [], pos, length, IfOk, vec_capacity};
ghost use Rattle.hub_spec.specs.Limits.{most_flow, most_cost};
ghost use Rattle.hub_spec.specs.Problem.{IsProblem, flow};
ghost use Rattle.hub_spec.specs.Separation.{values_listed, AreListedValues};
ghost use Rattle.hub_model.specs.Prices.{signed_values, AreSignedPrices};
ghost use Rattle.cut_model.specs.ValueRows.{node_value, allowed_price, value_dual, offset_of};

use crate::offsets::offset_of;
use crate::pricing::value_of;
use crate::{CandidateLegs, ListedRow};
use hub_model::{list_value, signed};
use std::alloc::{AllocError, Global};
use std::marker::Model;

/// A workspace for one dual: the last that was made, as a certificate lists it.
#[derive(Drop)]
pub struct DualScratch {
    room: usize,
    a: i128,
    u: Vec<(u32, i128)>,
}

impl Model for DualScratch {
    ghost use Rattle.value_cuts.specs.HeldDuals.{RoomyDual, kept_dual, IsKeptDual};

    ghost Value = { RoomyDual };

    ghost view = { λ s. record { room = s.room; dual = kept_dual s } };

    ghost invariant = { IsKeptDual };
}

impl DualScratch {
    /// A workspace for the instance of these tables, with the zero dual.
    pub fn new(alloc: Global, tables: &CandidateLegs) -> Result<DualScratch, AllocError>
        ensures { IfOk result (λ s.
            s ≡ record { room = length tables.now.candidates; dual = record { a = 0; u = [] } }) }
    {
        let room = tables.places();
        Ok(DualScratch {
            room,
            a: 0,
            u: Vec::with_capacity(alloc, room)?,
        })
    }

    /// Makes the dual of the commodity from `i` to `j`, from its row of values, its price per unit of flow, and the offset
    /// of the first commodity, in 10^-12. It allocates nothing.
    pub fn make(
        &mut self,
        tables: &CandidateLegs,
        i: u32,
        j: u32,
        row: &ListedRow<'_>,
        price: u64,
        offset: u128,
    )
        requires origin { i < tables.now.size }
        requires destination { j < tables.now.size }
        requires row { length row.now.row.now ≡ length tables.now.candidates }
        requires price { price ≡ allowed_price tables.now (i, j) (node_value tables.now row.now.unit row.now.row.now) }
        requires room { length tables.now.candidates ≤ self.old.room }
        ensures dual { let p = tables.now in
            self.new.dual ≡ value_dual p row.now.unit (offset_of p offset (i, j)) row.now.row.now (i, j) }
        ensures room { self.new.room ≡ self.old.room }
    {
        let ListedRow { unit, row } = *row;
        let flow = flow_between(tables, i, j);
        let offset = offset_of(tables.instance(), offset, i, j);
        self.a = signed(offset + flow as u128 * price as u128);
        list_values(tables, flow, offset, unit, row, &mut self.u);
    }

    /// The dual that was made last: its price, and its nodes with their values, ascending, each above 0. All are in
    /// 10^-12.
    pub fn dual(&self) -> (i128, &[(u32, i128)])
        ensures price { result.0 ≡ pos self.now.dual.a }
        ensures values { result.1.now ≡ signed_values self.now.dual.u }
        ensures listed { AreListedValues self.now.dual.u }
    {
        (self.a, &self.u)
    }
}

/// The flow from `i` to `j`.
fn flow_between(tables: &CandidateLegs, i: u32, j: u32) -> u64
    requires origin { i < tables.now.size }
    requires destination { j < tables.now.size }
    ensures value { result ≡ flow tables.now i j }
    ensures limit { result ≤ most_flow }
{
    tables.instance().flow_between(i, j)
}

/// Lists the candidates whose value, the offset and the flow times what the row lists, is above 0.
fn list_values(
    tables: &CandidateLegs,
    flow: u64,
    offset: u128,
    unit: u32,
    row: &[u32],
    u: &mut Vec<(u32, i128)>,
)
    requires flow { flow ≤ most_flow }
    requires offset { offset ≤ most_cost }
    requires row { length row.now ≡ length tables.now.candidates }
    requires room { length tables.now.candidates ≤ vec_capacity u.old }
    ensures room { vec_capacity u.old ≤ vec_capacity u.new }
    ensures are { u.new.items
        ≡ signed_values (values_listed (λ k. offset + flow * node_value tables.now unit row.now k) tables.now.candidates) }
    ensures problem { IsProblem tables.now }
{
    let ceiling = tables.ceiling();
    let candidates = tables.instance().candidates();
    u.clear();
    for x in 0..candidates.len() {
        let value = offset + flow as u128 * value_of(ceiling, unit, row[x]) as u128;
        list_value(candidates[x], value, u);
    }
}

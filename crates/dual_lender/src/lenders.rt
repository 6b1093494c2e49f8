//! Duals of stored cuts, one at a time.

ghost use Rattle.std.specs.Prelude.{◌≡◌, ◌+◌, ◌*◌, ◌<◌, ◌≤◌, ◌↔◌, pos, length, IfOk, IsTrue};
ghost use Rattle.hub_spec.specs.Problem.{IsProblem};
ghost use Rattle.hub_spec.specs.Ranges.{IsCutInRange};
ghost use Rattle.hub_spec.specs.Separation.{AreListedValues};
ghost use Rattle.hub_model.specs.Prices.{signed_values};
ghost use Rattle.cut_pool.specs.Kept.{kept_of, IsKeptFor};
ghost use Rattle.dual_lender.specs.Lenders.{stated_dual, kept_dual, IsLenderFor, IsReady, HasDuals, made_dual};
ghost use Rattle.dual_lender.specs.LenderParts.{lender_with};

use crate::held_duals::HeldDual;
use crate::value_rooms::ValueRoom;
use cut_model::StatedCut;
use cut_pool::KeptCut;
use hub_model::Instance;
use pareto_cuts::Scratch;
use std::alloc::{AllocError, Global};
use std::marker::Model;
use value_cuts::CandidateLegs;

/// A workspace that makes the duals of an instance's stored cuts, one at a time. It is allocated once.
///
/// It takes the cut first, then an origin, then each destination. The dual of an explicit cut (Pareto-optimal or
/// imported) is copied. A second dual can be held, to be compared with the one made last. Only `new` allocates.
#[derive(Drop)]
pub struct DualLender<'a> {
    values: ValueRoom<'a>,
    sets: Scratch,
    // The dual that was made last of a cut that is stored with its duals.
    stated: HeldDual,
    held: HeldDual,
}

impl<'a> Model for DualLender<'a> {
    ghost use Rattle.std.specs.Prelude.{◌≤◌};
    ghost use Rattle.dual_lender.specs.Lenders.{LenderState};

    ghost Value = { LenderState };

    ghost view = { λ s. record { values = s.values; sets = s.sets; stated = s.stated.dual; held = s.held.dual } };

    ghost invariant = { λ s. (s.values.problem.size ≤ s.sets.room) × (s.values.problem.size ≤ s.stated.room) × (s.values.problem.size ≤ s.held.room) };
}

impl<'a> DualLender<'a> {
    /// A workspace for the instance of the tables. Several workspaces can share them.
    pub fn new(alloc: Global, tables: &'a CandidateLegs<'a>) -> Result<DualLender<'a>, AllocError>
        ensures { IfOk result (IsLenderFor tables.now) }
    {
        let instance = tables.instance();
        let values = ValueRoom::new(alloc, tables)?;
        let sets = Scratch::new(alloc, instance)?;
        let (stated, held) = two_copies(alloc, instance.size() as usize)?;
        Ok(DualLender {
            values,
            sets,
            stated,
            held,
        })
    }

    /// The tables.
    pub fn tables(&self) -> &'a CandidateLegs<'a>
        ensures { result.now ≡ self.now.values.problem }
    {
        self.values.tables()
    }

    /// Prepares the duals of the cut.
    pub fn begin(&mut self, instance: &Instance, kept: &KeptCut)
        requires lender { IsLenderFor instance.now self.old }
        requires fits { IsKeptFor instance.now (kept_of kept.now) }
        ensures ready { IsReady instance.now (kept_of kept.now) self.new }
    {
        match kept {
            KeptCut::Set(set, order) => self.sets.prepare(instance, set, order),
            KeptCut::Values(_) | KeptCut::Core(_) | KeptCut::Given(_) => {}
        }
    }

    /// Prepares the duals of all commodities from `i`.
    pub fn work_out(&mut self, instance: &Instance, kept: &KeptCut, i: u32)
        requires fits { IsKeptFor instance.now (kept_of kept.now) }
        requires ready { IsReady instance.now (kept_of kept.now) self.old }
        requires origin { i < instance.now.size }
        ensures duals { HasDuals instance.now (kept_of kept.now) i self.new }
    {
        match kept {
            KeptCut::Values(values) => self.values.set_prices(values, i),
            KeptCut::Set(set, order) => self.sets.work_out(instance, set, order, i),
            KeptCut::Core(_) | KeptCut::Given(_) => {}
        }
    }

    /// Makes the dual of the commodity from `i` to `j`.
    pub fn make(&mut self, instance: &Instance, kept: &KeptCut, i: u32, j: u32)
        requires fits { IsKeptFor instance.now (kept_of kept.now) }
        requires duals { HasDuals instance.now (kept_of kept.now) i self.old }
        requires origin { i < instance.now.size }
        requires destination { j < instance.now.size }
        ensures duals { HasDuals instance.now (kept_of kept.now) i self.new }
        ensures made { made_dual (kept_of kept.now) self.new ≡ kept_dual instance.now (kept_of kept.now) (i, j) }
        ensures held { self.new.held ≡ self.old.held }
    {
        match kept {
            KeptCut::Values(values) => self.values.make_dual(values, i, j),
            KeptCut::Set(set, order) => self.sets.make_dual(instance, set, order, i, j),
            KeptCut::Core(marked) => unpack_dual(instance, &marked.cut, i, j, &mut self.stated),
            KeptCut::Given(cut) => unpack_dual(instance, cut, i, j, &mut self.stated),
        }
    }

    /// The dual of the cut that was made last: its price, and its nodes with their values, ascending. All are in
    /// 10^-12.
    pub fn dual<'d>(&'d self, kept: &'d KeptCut) -> (i128, &'d [(u32, i128)])
        ensures price { result.0 ≡ pos (made_dual (kept_of kept.now) self.now).a }
        ensures values { result.1.now ≡ signed_values (made_dual (kept_of kept.now) self.now).u }
        ensures listed { AreListedValues (made_dual (kept_of kept.now) self.now).u }
    {
        last_made(&self.values, &self.sets, &self.stated, kept)
    }

    /// Holds the dual of the cut that was made last, instead of the one held so far.
    pub fn hold(&mut self, kept: &KeptCut)
        requires few { length (made_dual (kept_of kept.now) self.old).u ≤ self.old.values.problem.size }
        ensures { self.new ≡ record self.old { held = made_dual (kept_of kept.now) self.old } }
    {
        let (a, u) = last_made(&self.values, &self.sets, &self.stated, kept);
        self.held.copy(a, u);
    }

    /// Tells whether the dual of the cut that was made last equals the one that is held.
    pub fn holds(&self, kept: &KeptCut) -> bool
        ensures { IsTrue result ↔ (self.now.held ≡ made_dual (kept_of kept.now) self.now) }
    {
        let (a, u) = self.dual(kept);
        self.held.is(a, u)
    }

    /// The dual that is held: its price, and its nodes with their values, ascending. All are in 10^-12.
    pub fn held(&self) -> (i128, &[(u32, i128)])
        ensures price { result.0 ≡ pos self.now.held.a }
        ensures values { result.1.now ≡ signed_values self.now.held.u }
    {
        self.held.dual()
    }
}

// The price of the dual that was made last of the cut, and its nodes with their values: by the values, by the hub
// set, or as it was unpacked.
fn last_made<'d>(
    values: &'d ValueRoom,
    sets: &'d Scratch,
    stated: &'d HeldDual,
    kept: &'d KeptCut,
) -> (i128, &'d [(u32, i128)])
    ensures price { result.0 ≡ pos (made_dual (kept_of kept.now) (lender_with values.now sets.now stated.now.dual)).a }
    ensures values { result.1.now ≡ signed_values (made_dual (kept_of kept.now) (lender_with values.now sets.now stated.now.dual)).u }
    ensures listed { AreListedValues (made_dual (kept_of kept.now) (lender_with values.now sets.now stated.now.dual)).u }
{
    match kept {
        KeptCut::Values(_) => values.dual(),
        KeptCut::Set(..) => sets.dual(),
        KeptCut::Core(_) | KeptCut::Given(_) => stated.dual(),
    }
}

// Unpacks the dual of the commodity from `i` to `j` of the cut.
fn unpack_dual(instance: &Instance, cut: &StatedCut, i: u32, j: u32, dual: &mut HeldDual)
    requires cut { IsCutInRange instance.now.size cut.now }
    requires origin { i < instance.now.size }
    requires destination { j < instance.now.size }
    requires room { instance.now.size ≤ dual.old.room }
    ensures room { dual.new.room ≡ dual.old.room }
    ensures dual { dual.new.dual ≡ stated_dual cut.now (i * instance.now.size + j) }
{
    let number = commodity_number(instance, i, j);
    dual.unpack(&cut.dual(number));
}

// Room for two copies of duals, of so many values each.
fn two_copies(alloc: Global, room: usize) -> Result<(HeldDual, HeldDual), AllocError>
    ensures first { IfOk result (λ copies. copies.0.room ≡ room) }
    ensures second { IfOk result (λ copies. copies.1.room ≡ room) }
{
    Ok((HeldDual::new(alloc, room)?, HeldDual::new(alloc, room)?))
}

// The number of the commodity from `i` to `j`, counted from 0.
fn commodity_number(instance: &Instance, i: u32, j: u32) -> u32
    requires origin { i < instance.now.size }
    requires destination { j < instance.now.size }
    ensures value { result ≡ i * instance.now.size + j }
    ensures problem { IsProblem instance.now }
{
    i * instance.size() + j
}

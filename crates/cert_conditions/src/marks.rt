//! The mark of a cut, hub by hub, and then the proofs of its duals, one after another.

ghost use Rattle.std.specs.Prelude.{◌≡◌, ℕ, ◌<◌, ◌≤◌, ◌↔◌, None, [], ◌∷◌, ◌++◌, List, length, slice_index, IsTrue, IfOk, All, Contains};
ghost use Rattle.hub_spec.specs.Limits.{most_part};
ghost use Rattle.hub_spec.specs.Plans.{IsCandidateSet};
ghost use Rattle.hub_spec.specs.Cuts.{value_at};
ghost use Rattle.core_spec.specs.CoreCuts.{MayBeMarked};
ghost use Rattle.hub_spec.specs.Ranges.{IsDualInRange};
ghost use Rattle.cert_spec.specs.Conditions.{MayMark};
ghost use Rattle.core_spec.specs.MarkRanges.{most_turns, most_scale, most_taken};
ghost use Rattle.core_lines.specs.Tallies.{most_ways, IsNoWay, IsWayAdded};
ghost use Rattle.core_lines.specs.Tests.{IsListed, Proves};
ghost use Rattle.cert_conditions.specs.Marks.{MarkTally};

use crate::sums::add_values;
use cert_lines::is_candidate;
use core_lines::ProofLine;
use hub_model::Instance;
use std::alloc::{AllocError, Global};
use std::marker::Model;

/// The part of a marked cut, the hubs of its mark so far, and the current proof. It is used for one mark after another.
#[derive(Drop)]
pub(crate) struct MarkLine<'a> {
    part: u32,
    hubs: Vec<u32>,
    proof: ProofLine<'a>,
    // The values of a dual by node, while they are tested.
    values: Vec<u128>,
}

impl<'a> Model for MarkLine<'a> {
    ghost use Rattle.std.specs.Prelude.{vec_capacity};
    ghost use Rattle.cert_conditions.specs.Marks.{MarkTally, IsHeld};

    ghost Value = { MarkTally };

    ghost view = { λ s. record { part = s.part; hubs = s.hubs.items; proof = s.proof } };

    ghost invariant = { λ s. IsHeld (vec_capacity s.hubs) s.values.items (record {
      part = s.part;
      hubs = s.hubs.items;
      proof = s.proof;
    }) };
}

impl<'a> MarkLine<'a> {
    /// A mark without hubs. This is the only call that allocates: a hub and a value of each node, and a proof.
    pub(crate) fn new(alloc: Global, instance: &'a Instance) -> Result<MarkLine<'a>, AllocError>
        ensures { IfOk result (λ mark. mark.proof.problem ≡ instance.now) }
    {
        let nodes = instance.size() as usize;
        Ok(MarkLine {
            part: 1,
            hubs: Vec::with_capacity(alloc, nodes)?,
            proof: ProofLine::new(alloc, instance)?,
            values: vec![in alloc; 0; nodes]?,
        })
    }

    /// Begins the mark of a cut with this part, without hubs.
    pub(crate) fn begin(&mut self, part: u32)
        requires least { 1 ≤ part }
        requires most { part ≤ most_part }
        ensures { self.new ≡ record self.old { part = part; hubs = [] } }
    {
        self.part = part;
        self.hubs.clear();
    }

    /// The part of the cut.
    pub(crate) fn part(&self) -> u32
        ensures part { result ≡ self.now.part }
        ensures least { 1 ≤ result }
        ensures most { result ≤ most_part }
    {
        self.part
    }

    /// Adds a hub above those before it. It need not be a candidate.
    pub(crate) fn add_hub(&mut self, k: u32)
        requires node { k < self.old.proof.problem.size }
        requires above { All (λ (m : ℕ). m < k) self.old.hubs }
        ensures { self.new ≡ record self.old { hubs = self.old.hubs ++ k ∷ [] } }
    {
        self.hubs.push_reserved(k);
    }

    /// Tells whether cuts of the instance may be marked, and the hubs are candidates.
    pub(crate) fn may_mark(&self, instance: &Instance) -> bool
        ensures { IsTrue result ↔ MayMark instance.now self.now.hubs }
    {
        may_be_marked(instance) && are_candidates(instance, &self.hubs)
    }

    /// Begins the proof of the dual of this commodity, without paths.
    pub(crate) fn begin_proof(&mut self, commodity: (u32, u32), turns: u32, scale: u32)
        requires from { commodity.0 < self.old.proof.problem.size }
        requires to { commodity.1 < self.old.proof.problem.size }
        requires turns { turns ≤ most_turns }
        requires some_scale { 1 ≤ scale }
        requires scale { scale ≤ most_scale }
        ensures begun { IsNoWay self.old.proof.problem commodity turns scale self.new.proof }
        ensures same { self.new ≡ record self.old { proof = self.new.proof } }
    {
        self.proof.begin(commodity.0, commodity.1, turns, scale);
    }

    /// Takes a path of the proof: its nodes, and its multiplicity.
    pub(crate) fn take_way(&mut self, way: (u32, u32, u64))
        requires first { way.0 < self.old.proof.problem.size }
        requires last { way.1 < self.old.proof.problem.size }
        requires often { way.2 ≤ most_taken }
        requires few { self.old.proof.count < most_ways }
        ensures added { IsWayAdded self.old.proof way self.new.proof }
        ensures same { self.new ≡ record self.old { proof = self.new.proof } }
    {
        self.proof.take(way.0, way.1, way.2);
    }

    /// Whether the proof shows that a dual of this part, with this price and these values, is Pareto-optimal.
    pub(crate) fn proves(&mut self, part: u32, price: u128, values: &[(u32, u128)]) -> bool
        requires any_length { self.old.proof.problem.longest ≡ None }
        requires set { IsCandidateSet self.old.proof.problem self.old.hubs }
        requires part { part ≤ most_part }
        requires dual { IsDualInRange self.old.proof.problem.size (record { a = price; u = values.now }) }
        ensures proves { (row : List ℕ) × IsListed (record { a = price; u = values.now }) price row
            × (IsTrue result ↔ Proves self.old.hubs part price row self.old.proof) }
        ensures same { self.new ≡ self.old }
    {
        list_values(&mut self.values, values);
        self.proof.proves(&self.hubs, part, price, &self.values)
    }
}

// Writes the values by node.
fn list_values(row: &mut [u128], values: &[(u32, u128)])
    requires dual { IsDualInRange (length row.old) (record { a = 0; u = values.now }) }
    ensures { (k : ℕ) → slice_index row.new k ≡ value_at values.now k }
{
    row.fill(0);
    add_values(row, 1, values);
}

// Tells whether cuts of the instance may be marked.
fn may_be_marked(instance: &Instance) -> bool
    ensures { IsTrue result ↔ MayBeMarked instance.now }
{
    let count = instance.candidates().len();
    instance.length_limit().is_none() && instance.wanted().is_none() && 3 <= count && count <= 20
}

// Tells whether all of these nodes are candidates.
fn are_candidates(instance: &Instance, nodes: &[u32]) -> bool
    ensures { IsTrue result ↔ All (Contains instance.now.candidates) nodes.now }
{
    for k in nodes {
        if !is_candidate(instance, *k) {
            return false;
        }
    }
    true
}

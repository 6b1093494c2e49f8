//! The legs to, between and from the candidates of an instance.

ghost use Rattle.std.specs.Prelude.{◌≡◌, ◌*◌, ◌<◌, ◌≤◌, length, IfOk};
ghost use Rattle.hub_spec.specs.Limits.{most_nodes};
ghost use Rattle.hub_spec.specs.Problem.{IsProblem, greatest};
ghost use Rattle.unit_duals.specs.Limits.{most_length};
ghost use Rattle.unit_duals.specs.Lengths.{IsLegRow};
ghost use Rattle.hub_model.specs.CandidateLengths.{length_ceiling};
ghost use Rattle.leg_duals.specs.CandidateLegs.{collection_length, trunk_length, delivery_length, IsLegTable};

use crate::candidate_filling::{
    ceiling_of, farthest_of, places_of, set_between, set_collect, set_deliver,
};
use hub_model::Instance;
use std::alloc::{AllocError, Global};
use std::marker::Model;
use unit_duals::row;

/// The legs of an instance's routes through its candidates, per unit of flow, and a ceiling of all lengths. They are
/// seen as the instance.
///
/// They are only read, so several workers may share them. Each leg is at most 10^16, in 10^-6.
#[derive(Drop)]
pub struct CandidateLegs<'a> {
    instance: &'a Instance,
    places: usize,
    farthest: u64,
    ceiling: u64,
    collect: Vec<u64>,
    trunk: Vec<u64>,
    deliver: Vec<u64>,
}

impl<'a> Model for CandidateLegs<'a> {
    ghost use Rattle.hub_spec.specs.Problem.{Problem};
    ghost use Rattle.leg_duals.specs.LegParts.{AreCandidateLegs};

    ghost Value = { Problem };

    ghost view = { λ s. s.instance.now };

    ghost invariant = { AreCandidateLegs };
}

impl<'a> CandidateLegs<'a> {
    /// The tables of the instance.
    pub fn new(alloc: Global, instance: &'a Instance) -> Result<CandidateLegs<'a>, AllocError>
        ensures { IfOk result (λ t. t ≡ instance.now) }
    {
        let nodes = instance.size() as usize;
        let places = places_of(instance);
        let mut collect = vec![in alloc; 0; nodes * places]?;
        let mut trunk = vec![in alloc; 0; places * places]?;
        let mut deliver = vec![in alloc; 0; nodes * places]?;
        set_collect(instance, &mut collect);
        set_between(instance, &mut trunk);
        set_deliver(instance, &mut deliver);
        let farthest = farthest_of(instance);
        Ok(CandidateLegs {
            instance,
            places,
            farthest,
            ceiling: ceiling_of(instance, farthest),
            collect,
            trunk,
            deliver,
        })
    }

    /// The instance.
    pub fn instance(&self) -> &Instance
        ensures value { result.now ≡ self.now }
        ensures problem { IsProblem self.now }
    {
        self.instance
    }

    /// The number of candidates.
    pub fn places(&self) -> usize
        ensures value { result ≡ length self.now.candidates }
        ensures limit { result ≤ most_nodes }
    {
        self.places
    }

    /// The greatest distance, in 10^-3.
    pub fn farthest(&self) -> u64
        ensures { result ≡ greatest self.now.distances }
    {
        self.farthest
    }

    /// The ceiling of all lengths, in 10^-6: the sum of the factors times the greatest distance.
    pub fn ceiling(&self) -> u64
        ensures value { result ≡ length_ceiling self.now }
        ensures limit { result ≤ most_length }
        ensures problem { IsProblem self.now }
    {
        self.ceiling
    }

    /// The legs of collection, row by row.
    pub fn collection_table(&self) -> &[u64]
        ensures { IsLegTable self.now.size (length self.now.candidates) (collection_length self.now) result.now }
    {
        &self.collect
    }

    /// The trunk legs, row by row.
    pub fn trunk_table(&self) -> &[u64]
        ensures { IsLegTable (length self.now.candidates) (length self.now.candidates) (trunk_length self.now) result.now }
    {
        &self.trunk
    }

    /// The legs of delivery, row by row.
    pub fn delivery_table(&self) -> &[u64]
        ensures { IsLegTable self.now.size (length self.now.candidates) (delivery_length self.now) result.now }
    {
        &self.deliver
    }

    /// The legs of collection from the origin to each candidate.
    pub fn collection_legs(&self, i: u32) -> &[u64]
        requires { i < self.now.size }
        ensures { IsLegRow (length self.now.candidates) (collection_length self.now i) result.now }
    {
        row(&self.collect, i as usize, self.places)
    }

    /// The trunk legs from the candidate with index `x` to each candidate.
    pub fn trunk_legs(&self, x: usize) -> &[u64]
        requires { x < length self.now.candidates }
        ensures { IsLegRow (length self.now.candidates) (trunk_length self.now x) result.now }
    {
        row(&self.trunk, x, self.places)
    }

    /// The legs of delivery from each candidate to the destination.
    pub fn delivery_legs(&self, j: u32) -> &[u64]
        requires { j < self.now.size }
        ensures { IsLegRow (length self.now.candidates) (delivery_length self.now j) result.now }
    {
        row(&self.deliver, j as usize, self.places)
    }
}

//! What is a set of candidates, and whether it has as many hubs as are wanted.

ghost use Rattle.std.specs.Prelude.{◌<◌, ◌↔◌, IsTrue, All};
ghost use Rattle.std.specs.Bool.{OnTrue};
ghost use Rattle.hub_spec.specs.Plans.{IsCandidateSet, HasWanted};

use crate::{Instance, are_among, ascends};

/// Tells whether these are candidates in ascending order, and at least one.
pub fn is_candidate_set(instance: &Instance, hubs: &[u32]) -> bool
    ensures tells { IsTrue result ↔ IsCandidateSet instance.now hubs.now }
    ensures nodes { OnTrue result (All (λ k. k < instance.now.size) hubs.now) }
{
    !hubs.is_empty() && ascends(hubs) && are_among(instance.candidates(), hubs)
}

/// Tells whether there are as many hubs as are wanted, if a number is.
pub fn has_wanted(instance: &Instance, hubs: &[u32]) -> bool
    ensures { IsTrue result ↔ HasWanted instance.now hubs.now }
{
    match instance.wanted() {
        Some(count) => hubs.len() == count as usize,
        None => true,
    }
}

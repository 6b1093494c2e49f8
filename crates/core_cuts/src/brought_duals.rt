//! Duals scaled to a greater part.

ghost use Rattle.std.specs.Prelude.{◌≡◌, ◌↔◌, ◌*◌, ◌<◌, ◌≤◌, pos, length, slice_index_or, None, All, IfOk, IfSome, IsTrue};
ghost use Rattle.std.specs.Int.{◌∣◌};
ghost use Rattle.hub_spec.specs.Limits.{most_part};
ghost use Rattle.hub_spec.specs.Separation.{AreListedValues};
ghost use Rattle.core_cuts.specs.Brought.{most_found, most_sum, IsDualWithin};
ghost use Rattle.core_cuts.specs.FoundCuts.{times_dual, brought};

use crate::core_duals::CoreDual;
use hub_model::{Dual, signed};
use std::alloc::{AllocError, Global};

/// The dual brought to the part, if its price and its values are then at most so much.
pub(crate) fn brought_dual(
    alloc: Global,
    found: &CoreDual,
    part: u32,
    most: u128,
) -> Result<Option<Dual>, AllocError>
    requires some { 1 ≤ found.now.part }
    requires part { 1 ≤ part }
    requires limit { part ≤ most_part }
    requires divides { found.now.part ∣ part }
    requires most { most ≤ most_sum }
    requires within { IsDualWithin most_found found.now.dual }
    requires listed { AreListedValues found.now.dual.u }
    ensures is { IfOk result (λ dual. IfSome dual (λ d. d ≡ brought part found.now)) }
    ensures within { IfOk result (λ dual. IfSome dual (λ d. IsDualWithin most d)) }
    ensures none { IfOk result (λ dual. dual ≡ None → IsDualWithin most (brought part found.now) → ⊥) }
{
    let times = part / found.part;
    if !is_within(&found.dual, times, most) {
        return Ok(None);
    }
    Ok(Some(times_dual(alloc, &found.dual, times)?))
}

/// Tells whether price and values are at most so much when they are so many times as great.
fn is_within(dual: &Dual, times: u32, most: u128) -> bool
    requires times { times ≤ most_part }
    requires within { IsDualWithin most_found dual.now }
    ensures { IsTrue result ↔ IsDualWithin most (times_dual times dual.now) }
{
    times as u128 * dual.price() <= most && are_within(dual, times, most)
}

/// Tells whether the values are.
fn are_within(dual: &Dual, times: u32, most: u128) -> bool
    requires times { times ≤ most_part }
    requires within { IsDualWithin most_found dual.now }
    ensures { IsTrue result ↔ All (λ e. times * e.1 ≤ most) dual.now.u }
{
    for at in 0..dual.count() {
        if !is_value_within(dual, at, times, most) {
            return false;
        }
    }
    true
}

/// Tells whether the value that is listed at this place is.
fn is_value_within(dual: &Dual, at: usize, times: u32, most: u128) -> bool
    requires times { times ≤ most_part }
    requires within { IsDualWithin most_found dual.now }
    requires at { at < length dual.now.u }
    ensures { IsTrue result ↔ (times * (slice_index_or dual.now.u at (0, 0)).1 ≤ most) }
{
    let (_, value) = dual.value(at);
    times as u128 * value <= most
}

/// The dual with price and values so many times as great.
fn times_dual(alloc: Global, dual: &Dual, times: u32) -> Result<Dual, AllocError>
    requires some { 1 ≤ times }
    requires times { times ≤ most_part }
    requires within { IsDualWithin most_found dual.now }
    requires listed { AreListedValues dual.now.u }
    ensures { IfOk result (λ d. d ≡ times_dual times dual.now) }
{
    let mut u = Vec::new(alloc);
    for at in 0..dual.count() {
        u.push(times_value(dual, at, times))?;
    }
    Ok(Dual::new(signed(times as u128 * dual.price()), u))
}

/// The node that is listed at this place, with its value so many times as great.
fn times_value(dual: &Dual, at: usize, times: u32) -> (u32, i128)
    requires times { times ≤ most_part }
    requires within { IsDualWithin most_found dual.now }
    requires at { at < length dual.now.u }
    ensures node { result.0 ≡ (slice_index_or dual.now.u at (0, 0)).0 }
    ensures value { result.1 ≡ pos (times * (slice_index_or dual.now.u at (0, 0)).1) }
{
    let (node, value) = dual.value(at);
    (node, signed(times as u128 * value))
}

//! For each position and each earlier position, the destinations that are near.

ghost use Rattle.std.specs.Prelude.{◌≡◌, ℕ, ◌+◌, ◌*◌, ◌<◌, ◌≤◌, length, slice_index, slice_range, All, IfOk, vec_len};
ghost use Rattle.std.specs.List.{SameBelow};
ghost use Rattle.unit_duals.specs.Cells.{cell};
ghost use Rattle.unit_duals.specs.Limits.{most_leg, most_room};
ghost use Rattle.unit_duals.specs.Lengths.{stops};
ghost use Rattle.unit_duals.specs.Nearness.{IsNearPart, AreListsForth, AreListsHome, AreForthUpTo, AreHomeUpTo};

use crate::Legs;
use crate::legs::row;
use std::alloc::{AllocError, Global};

/// Lists of destinations one after another: that of place `t` and the earlier place `e` has the number
/// `t * count + e`, and stands from the start of its number to the next one's.
#[derive(Drop)]
pub(crate) struct NearLists {
    starts: Vec<u32>,
    nodes: Vec<u8>,
}

impl NearLists {
    /// Lists with room for this many places and destinations.
    pub(crate) fn new(alloc: Global, room: usize) -> Result<NearLists, AllocError>
        requires { room ≤ most_room }
        ensures starts { IfOk result (λ s. vec_len s.starts ≡ room * room) }
        ensures nodes { IfOk result (λ s. room * room * room ≤ 2 * vec_len s.nodes) }
    {
        // No list has a place itself or a later one, so half of all triples suffice.
        let most = room * room * room / 2 + 1;
        Ok(NearLists {
            starts: vec![in alloc; 0; room * room]?,
            nodes: vec![in alloc; 0; most]?,
        })
    }

    /// Makes the lists for the ways to a place and on by an earlier one.
    pub(crate) fn set_forth(&mut self, legs: &Legs, back: &[u64])
        requires back { length back.now ≡ stops legs.now * legs.now.size }
        requires starts { legs.now.count * legs.now.count ≤ vec_len self.old.starts }
        requires nodes { legs.now.count * legs.now.count * legs.now.size ≤ 2 * vec_len self.old.nodes }
        ensures lists { AreListsForth legs.now back.now self.new.starts.items self.new.nodes.items }
        ensures starts { vec_len self.new.starts ≡ vec_len self.old.starts }
        ensures nodes { vec_len self.new.nodes ≡ vec_len self.old.nodes }
    {
        set_lists_forth(legs, back, &mut self.starts, &mut self.nodes);
    }

    /// Makes the lists for the ways by an earlier place and on by a place.
    pub(crate) fn set_home(&mut self, legs: &Legs, back: &[u64])
        requires back { length back.now ≡ stops legs.now * legs.now.size }
        requires starts { legs.now.count * legs.now.count ≤ vec_len self.old.starts }
        requires nodes { legs.now.count * legs.now.count * legs.now.size ≤ 2 * vec_len self.old.nodes }
        ensures lists { AreListsHome legs.now back.now self.new.starts.items self.new.nodes.items }
        ensures starts { vec_len self.new.starts ≡ vec_len self.old.starts }
        ensures nodes { vec_len self.new.nodes ≡ vec_len self.old.nodes }
    {
        set_lists_home(legs, back, &mut self.starts, &mut self.nodes);
    }

    /// The list of this number.
    pub(crate) fn list(&self, number: usize) -> &[u8]
        requires known { number + 1 < vec_len self.now.starts }
        requires ordered { slice_index self.now.starts.items number ≤ slice_index self.now.starts.items (number + 1) }
        requires within { slice_index self.now.starts.items (number + 1) ≤ vec_len self.now.nodes }
        ensures { let starts = self.now.starts.items in
            result.now ≡ slice_range self.now.nodes.items (slice_index starts number) (slice_index starts (number + 1)) }
    {
        let start = self.starts[number] as usize;
        let end = self.starts[number + 1] as usize;
        &self.nodes[start..end]
    }
}

/// Makes the lists of all places for the ways to a place and on by an earlier one.
fn set_lists_forth(legs: &Legs, back: &[u64], starts: &mut [u32], nodes: &mut [u8])
    requires back { length back.now ≡ stops legs.now * legs.now.size }
    requires starts { legs.now.count * legs.now.count ≤ length starts.old }
    requires nodes { legs.now.count * legs.now.count * legs.now.size ≤ 2 * length nodes.old }
    ensures { AreListsForth legs.now back.now starts.new nodes.new }
{
    let mut end = 0;
    for t in 0..legs.count() {
        end = add_row_forth(legs, back, t, end, starts, nodes);
    }
}

/// Makes the lists of all places for the ways by an earlier place and on by a place.
fn set_lists_home(legs: &Legs, back: &[u64], starts: &mut [u32], nodes: &mut [u8])
    requires back { length back.now ≡ stops legs.now * legs.now.size }
    requires starts { legs.now.count * legs.now.count ≤ length starts.old }
    requires nodes { legs.now.count * legs.now.count * legs.now.size ≤ 2 * length nodes.old }
    ensures { AreListsHome legs.now back.now starts.new nodes.new }
{
    let mut end = 0;
    for t in 0..legs.count() {
        end = add_row_home(legs, back, t, end, starts, nodes);
    }
}

/// Lists, from `start` on, the destinations to which the leg and their last leg together are shorter than the way
/// back, and answers where the list ends.
fn add_near(nodes: &mut [u8], start: usize, leg: u64, last: &[u64], back: &[u64]) -> usize
    requires few { length last.now ≤ most_room }
    requires back { length back.now ≡ length last.now }
    requires leg_limit { leg ≤ most_leg }
    requires last_limit { All (λ d. d ≤ most_leg) last.now }
    requires room { start + length last.now ≤ length nodes.old }
    ensures kept { SameBelow nodes.old nodes.new start }
    ensures longer { result ≤ start + length last.now }
    ensures list { IsNearPart (length last.now) (λ j. slice_index back.now j ≤ leg + slice_index last.now j) start result nodes.new }
{
    let mut end = start;
    for j in 0..last.len() {
        // The next one to be listed overwrites it, where it is not near.
        nodes[end] = j as u8;
        if leg + last[j] < back[j] {
            end += 1;
        }
    }
    end
}

/// Adds the lists of the place for the way to it and on by each earlier place.
fn add_row_forth(
    legs: &Legs,
    back: &[u64],
    t: usize,
    start: usize,
    starts: &mut [u32],
    nodes: &mut [u8],
) -> usize
    requires place { t < legs.now.count }
    requires back { length back.now ≡ stops legs.now * legs.now.size }
    requires starts { legs.now.count * legs.now.count ≤ length starts.old }
    requires nodes { legs.now.count * legs.now.count * legs.now.size ≤ 2 * length nodes.old }
    requires before { AreForthUpTo legs.now back.now t start starts.old nodes.old }
    ensures { AreForthUpTo legs.now back.now (t + 1) result starts.new nodes.new }
{
    let size = legs.size();
    let at = t * legs.count();
    let trunk = legs.trunk_row(t);
    let back_row = row(back, t, size);
    starts[at] = start as u32;
    let mut end = start;
    for e in 0..t {
        end = add_near(nodes, end, trunk[e], legs.last_row(e), back_row);
        starts[at + e + 1] = end as u32;
    }
    end
}

/// Adds the lists of the place for the way by each earlier place and on by it.
fn add_row_home(
    legs: &Legs,
    back: &[u64],
    t: usize,
    start: usize,
    starts: &mut [u32],
    nodes: &mut [u8],
) -> usize
    requires place { t < legs.now.count }
    requires back { length back.now ≡ stops legs.now * legs.now.size }
    requires starts { legs.now.count * legs.now.count ≤ length starts.old }
    requires nodes { legs.now.count * legs.now.count * legs.now.size ≤ 2 * length nodes.old }
    requires before { AreHomeUpTo legs.now back.now t start starts.old nodes.old }
    ensures { AreHomeUpTo legs.now back.now (t + 1) result starts.new nodes.new }
{
    let size = legs.size();
    let at = t * legs.count();
    let last = legs.last_row(t);
    starts[at] = start as u32;
    let mut end = start;
    for e in 0..t {
        end = add_near(nodes, end, legs.trunk_row(e)[t], last, row(back, e, size));
        starts[at + e + 1] = end as u32;
    }
    end
}

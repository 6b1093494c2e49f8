//! Loads in 32 bits.

ghost use Rattle.std.specs.Prelude.{◌≡◌, ℕ, ◌+◌, ◌-◌, ◌/◌, ◌^◌, ◌<◌, ◌≤◌, ◌++◌, ◌∷◌, [], false, Option, Some, length, map, slice_index, slice_index_or, IfSome, OnOk};
ghost use Rattle.cut_pool.specs.Shorts.{Shorts, IsRaised, IsStarted, ArePushed, IsWith, IsWithCut};

use std::alloc::{AllocError, Global};
use std::marker::Model;

// The greatest short load.
const MOST_SHORT: u128 = 0x7fff_ffff;

// How many halvings bring each number of 128 bits to 31 bits.
const MOST_HALVINGS: u32 = 97;

/// The loads of cuts in 32 bits: a row for each node, with one number for each cut, by number.
///
/// All loads are halved equally often, each time rounded down, until they fit 31 bits.
#[derive(Drop)]
pub struct ShortLoads {
    halvings: u32,
    rows: Vec<Vec<u32>>,
    alloc: Global,
}

impl Model for ShortLoads {
    ghost use Rattle.std.specs.Prelude.{◌≤◌, map};
    ghost use Rattle.cut_pool.specs.Shorts.{Shorts};

    ghost Value = { Shorts };

    ghost view = { λ s. record { halvings = s.halvings; rows = map (λ v. v.items) s.rows.items } };

    ghost invariant = { λ s. s.halvings ≤ 97 };
}

impl ShortLoads {
    /// No rows. It takes no memory.
    pub(crate) fn new(alloc: Global) -> ShortLoads
        ensures { result ≡ record { halvings = 0; rows = [] } }
    {
        ShortLoads {
            halvings: 0,
            rows: Vec::new(alloc),
            alloc,
        }
    }

    /// How often each load was halved.
    pub fn halvings(&self) -> u32
        ensures value { result ≡ self.now.halvings }
        ensures few { result < 128 }
    {
        self.halvings
    }

    /// The rows, one for each node, with a number for each cut.
    pub fn rows(&self) -> &[Vec<u32>]
        ensures { map (λ v. v.items) result.now ≡ self.now.rows }
    {
        &self.rows
    }

    // Takes memory for this many more cuts in each row.
    fn reserve(&mut self, cuts: usize) -> Result<(), AllocError>
        ensures { self.new ≡ self.old }
    {
        for k in 0..self.rows.len() {
            self.rows[k].reserve(cuts)?;
        }
        Ok(())
    }

    // Adds so many rows with no number.
    fn start(&mut self, rows: usize) -> Result<(), AllocError>
        ensures halvings { self.new.halvings ≡ self.old.halvings }
        ensures rows { (k : ℕ) → slice_index_or self.new.rows k [] ≡ slice_index_or self.old.rows k [] }
    {
        for _ in 0..rows {
            let row = Vec::new(self.alloc);
            self.rows.push(row)?;
        }
        Ok(())
    }

    // Adds the loads of a cut, one to each row, and first halves all rows as often as it takes.
    fn push(&mut self, loads: &[u128]) -> Result<(), AllocError>
        requires { length loads.now ≡ length self.old.rows }
        ensures { OnOk result (IsWith self.old self.new loads.now) }
    {
        let halvings = halvings_for(loads, self.halvings);
        push_each(&mut self.rows, halvings - self.halvings, loads, halvings)?;
        self.halvings = halvings;
        Ok(())
    }
}

/// Reserves memory for this many more cuts in each row, if rows are stored.
pub(crate) fn reserve_kept(kept: &mut Option<ShortLoads>, cuts: usize) -> Result<(), AllocError>
    ensures { kept.new ≡ kept.old }
{
    match kept {
        Some(short) => short.reserve(cuts),
        None => Ok(()),
    }
}

/// The loads with those of one more cut, the first or a later one, if loads are stored.
///
/// They are dropped where the cut has another number of loads than those before, or where memory runs out.
pub(crate) fn with_cut(
    kept: Option<ShortLoads>,
    is_first: bool,
    loads: &[u128],
) -> Option<ShortLoads>
    ensures { IfSome result (λ t. IsWithCut kept is_first t loads.now) }
{
    let mut short = started(kept?, is_first, loads.len())?;
    if short.rows.len() != loads.len() {
        return None;
    }
    match short.push(loads) {
        Ok(()) => Some(short),
        Err(_) => None,
    }
}

// The loads with so many rows more, where the first cut is to be added.
fn started(short: ShortLoads, is_first: bool, rows: usize) -> Option<ShortLoads>
    ensures { IfSome result (λ t. IsStarted is_first short t) }
{
    let mut short = short;
    if !is_first {
        return Some(short);
    }
    match short.start(rows) {
        Ok(()) => Some(short),
        Err(_) => None,
    }
}

// The least number of halvings, from this one on, after which each load fits 31 bits.
fn halvings_for(loads: &[u128], least: u32) -> u32
    requires { least ≤ 97 }
    ensures few { result ≤ 97 }
    ensures least { least ≤ result }
    ensures fit { (k : ℕ) → k < length loads.now → slice_index_or loads.now k 0 / 2 ^ result < 2 ^ 31 }
{
    let mut halvings = least;
    for load in loads {
        halvings = halvings_of(*load, halvings);
    }
    halvings
}

// The same for one load.
fn halvings_of(load: u128, least: u32) -> u32
    requires { least ≤ 97 }
    ensures { IsRaised load least result }
{
    for made in least..MOST_HALVINGS {
        if load >> made <= MOST_SHORT {
            return made;
        }
    }
    MOST_HALVINGS
}

// The load after so many halvings.
fn short(load: u128, halvings: u32) -> u32
    requires few { halvings ≤ 97 }
    requires fits { load / 2 ^ halvings < 2 ^ 31 }
    ensures { result ≡ load / 2 ^ halvings }
{
    (load >> halvings) as u32
}

// Halves each row's numbers `more` times, and adds the load of its node after all halvings.
fn push_each(
    rows: &mut [Vec<u32>],
    more: u32,
    loads: &[u128],
    halvings: u32,
) -> Result<(), AllocError>
    requires long { length loads.now ≡ length rows.old }
    requires few { halvings ≤ 97 }
    requires fit { (k : ℕ) → k < length loads.now → slice_index_or loads.now k 0 / 2 ^ halvings < 2 ^ 31 }
    ensures { OnOk result (ArePushed more halvings (map (λ v. v.items) rows.old) (map (λ v. v.items) rows.new) loads.now) }
{
    for k in 0..loads.len() {
        push_halved(&mut rows[k], more, short(loads[k], halvings))?;
    }
    Ok(())
}

// Halves each number of the row so often, and adds one that is not.
fn push_halved(row: &mut Vec<u32>, halvings: u32, number: u32) -> Result<(), AllocError>
    ensures { OnOk result (row.new.items ≡ map (λ x. x / 2 ^ halvings) row.old.items ++ number ∷ []) }
{
    halve(row, halvings);
    row.push(number)?;
    Ok(())
}

// Halves each number so often.
fn halve(numbers: &mut [u32], halvings: u32)
    ensures { numbers.new ≡ map (λ x. x / 2 ^ halvings) numbers.old }
{
    if halvings == 0 {
        return;
    }
    for number in numbers.iter_mut() {
        *number = halved(*number, halvings);
    }
}

fn halved(number: u32, halvings: u32) -> u32
    ensures { result ≡ number / 2 ^ halvings }
{
    number.checked_shr(halvings).unwrap_or(0)
}

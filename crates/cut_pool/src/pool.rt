//! The cut pool.

ghost use Rattle.std.specs.Prelude.{◌≡◌, ℕ, ◌+◌, ◌<◌, ◌≤◌, List, [], ◌∷◌, ◌++◌, Some, length, map, slice_index, IfSome, IfNone, IsOk, IfOk, OnOk, OnErr, IfErr};
ghost use Rattle.hub_spec.specs.Limits.{most_nodes};
ghost use Rattle.hub_spec.specs.Ranges.{IsCutInRange};
ghost use Rattle.cut_pool.specs.Kept.{kept_of, kept_set, kept_part};
ghost use Rattle.cut_pool.specs.Entries.{entry_of, core_entry, given_entry, entry_at, entry_part, unit_totals, unit_loads, most_stated, IsNumber, IsNumberOf, Lacks};
ghost use Rattle.cut_pool.specs.Shorts.{AreShortLoads, unit_row};
ghost use Rattle.cut_pool.specs.Stated.{IsStated};

use crate::places::{index_next, place_of};
use crate::set_cuts::hubs_of;
use crate::short_loads::{reserve_kept, with_cut};
use crate::stated_sums::StatedSums;
use crate::unit_columns::{UnitColumns, for_one_unit};
use crate::{CutStore, CutSums, KeptCut, KeptCuts, ShortLoads};
use cut_model::{MarkedCut, StatedCut};
use hub_model::HubSet;
use std::alloc::{AllocError, Global};
use std::marker::Model;

// The most cuts of a pool: their numbers are below 2^32.
const MOST_KEPT: u64 = 4_294_967_295;

/// The cut pool of a search, numbered from 1 in the order in which cuts were added. Separated and Pareto-optimal cuts
/// are cuts of hub sets, no two of one set. Imported cuts belong to no hub set.
///
/// A pool is seen as its entries, with the number of cuts that can be added for certain.
#[derive(Drop)]
pub struct Pool {
    cuts: CutStore,
    // The places of the cuts that are of hub sets, from 0, in the order of the members of these.
    by_set: Vec<u32>,
    // The loads in 32 bits, until they are dropped.
    short: Option<ShortLoads>,
    // Totals and loads for one unit of each cut's part.
    units: UnitColumns,
    // The greatest load of a cut that is stored with its duals, for one unit of its part.
    most_load: u128,
}

impl Model for Pool {
    ghost use Rattle.cut_pool.specs.Entries.{PoolState};

    ghost Value = { PoolState };

    ghost use Rattle.cut_pool.specs.PoolParts.{state_of, IsPool};

    ghost view = { state_of };

    ghost invariant = { IsPool };
}

/// A cut that was not added because memory ran out, with its order.
#[derive(Drop)]
pub struct Refused {
    /// The cut.
    pub cut: CutSums,
    /// The order of the candidates outside its hub set.
    pub order: Vec<u32>,
}

impl Pool {
    /// An empty pool. It allocates nothing.
    pub fn new(alloc: Global) -> Result<Pool, AllocError>
        ensures empty { IfOk result (λ p. p.entries ≡ []) }
        ensures succeeds { IsOk result }
    {
        Ok(Pool {
            cuts: CutStore::new(alloc),
            by_set: Vec::new(alloc),
            short: Some(ShortLoads::new(alloc)),
            units: UnitColumns::new(alloc),
            most_load: 0,
        })
    }

    /// Reserves memory for this many more cuts, so that adding them is certain to succeed.
    ///
    /// Adding may still allocate for the short loads, which are dropped where that fails. A pool has at most 2^32 - 1
    /// cuts; more fail as if memory ran out.
    pub fn reserve(&mut self, cuts: u64) -> Result<(), AllocError>
        ensures entries { self.new.entries ≡ self.old.entries }
        ensures spare { OnOk result (cuts ≤ self.new.spare) }
        ensures kept { self.old.spare ≤ self.new.spare }
        ensures succeeds { cuts ≤ self.old.spare → IsOk result }
    {
        if cuts <= self.spare() {
            return Ok(());
        }
        if cuts > MOST_KEPT - self.cuts.len() as u64 {
            return Err(AllocError);
        }
        let more = cuts as usize;
        self.cuts.reserve(more)?;
        self.by_set.reserve(more)?;
        self.units.reserve(more)?;
        reserve_kept(&mut self.short, more)
    }

    // How many more cuts can be added for certain.
    fn spare(&self) -> u64
        ensures { result ≡ self.now.spare }
    {
        let index = self.by_set.capacity() - self.by_set.len();
        let room = self.cuts.spare().min(index.min(self.units.spare()));
        (MOST_KEPT - self.cuts.len() as u64).min(room as u64)
    }

    /// The number of the cut of this hub set, if there is one. It allocates nothing.
    ///
    /// No two cuts are of one hub set, so the number is unique.
    pub fn find(&self, set: &HubSet) -> Option<u64>
        ensures some { IfSome result (IsNumberOf self.now.entries set.now) }
        ensures only { IfSome result (λ c. (x : ℕ) → IsNumberOf self.now.entries set.now x → x ≡ c) }
        ensures none { IfNone result (Lacks self.now.entries set.now) }
    {
        let hubs = set.members();
        let at = place_of(self.cuts.cuts(), &self.by_set, hubs);
        if at == self.by_set.len() {
            return None;
        }
        let place = self.by_set[at];
        if hubs_of(&self.cuts.cuts()[place as usize]) != hubs {
            return None;
        }
        Some(u64::from(place) + 1)
    }

    /// Adds the cut of a hub set that has none yet, with the order of the other candidates over which it was separated.
    /// It returns the cut's number, the next one.
    ///
    /// Cut and order come back where memory runs out, or where the pool is full. With memory reserved for one more it
    /// is certain to succeed. The short loads may still allocate, and are dropped where that fails.
    pub fn add(&mut self, cut: CutSums, order: Vec<u32>) -> Result<u64, Refused>
        requires { Lacks self.old.entries cut.hubs }
        ensures number { IfOk result (λ c. c ≡ length self.old.entries + 1) }
        ensures added { OnOk result (self.new.entries ≡ self.old.entries ++ entry_of cut order.items ∷ []) }
        ensures spare { OnOk result (self.old.spare ≤ self.new.spare + 1) }
        ensures succeeds { 1 ≤ self.old.spare → IsOk result }
        ensures refused { OnErr result (self.new.entries ≡ self.old.entries) }
        ensures given_back { IfErr result (λ r. r.cut ≡ cut) }
        ensures order_given_back { IfErr result (λ r. r.order.items ≡ order.items) }
    {
        if self.reserve(1).is_err() {
            return Err(Refused { cut, order });
        }
        let place = self.cuts.len();
        // The part is 1: the whole loads are those for one unit.
        let row = Vec::new(*order.allocator());
        let (set, total, loads) = cut.into_parts();
        let kept = KeptCut::Set(set, order);
        index_next(self.cuts.cuts(), &mut self.by_set, &kept);
        self.short = with_cut(self.short.take(), place == 0, &loads);
        self.units.put(total, row);
        self.cuts.put(kept, total, loads);
        Ok(place as u64 + 1)
    }

    /// Adds the Pareto-optimal cut of a hub set that has no cut yet, on `size` nodes. It returns the cut's number, the
    /// next one.
    ///
    /// The cut comes back where memory runs out, or where the pool is full. The pool's cuts are then unchanged.
    pub fn add_core(&mut self, alloc: Global, size: u32, cut: MarkedCut) -> Result<u64, MarkedCut>
        requires first_time { Lacks self.old.entries cut.mark.hubs }
        requires size { size ≤ most_nodes }
        requires duals { IsCutInRange size cut.cut }
        ensures number { IfOk result (λ c. c ≡ length self.old.entries + 1) }
        ensures added { OnOk result (self.new.entries ≡ self.old.entries ++ core_entry size cut ∷ []) }
        ensures spare { OnOk result (self.old.spare ≤ self.new.spare + 1) }
        ensures refused { OnErr result (self.new.entries ≡ self.old.entries) }
        ensures given_back { IfErr result (λ back. back ≡ cut) }
    {
        let Ok(sums) = StatedSums::of(alloc, size, &cut.cut) else {
            return Err(cut);
        };
        match self.add_stated(KeptCut::Core(cut), sums) {
            Ok(number) => Ok(number),
            Err(KeptCut::Core(cut)) => Err(cut),
            Err(_) => unreachable!(),
        }
    }

    /// Adds an imported cut with its duals, on `size` nodes. It returns the cut's number, the next one. `find` never
    /// returns it.
    ///
    /// The cut comes back where memory runs out, or where the pool is full. The pool's cuts are then unchanged.
    pub fn add_given(&mut self, alloc: Global, size: u32, cut: StatedCut) -> Result<u64, StatedCut>
        requires size { size ≤ most_nodes }
        requires duals { IsCutInRange size cut }
        ensures number { IfOk result (λ c. c ≡ length self.old.entries + 1) }
        ensures added { OnOk result (self.new.entries ≡ self.old.entries ++ given_entry size cut ∷ []) }
        ensures spare { OnOk result (self.old.spare ≤ self.new.spare + 1) }
        ensures refused { OnErr result (self.new.entries ≡ self.old.entries) }
        ensures given_back { IfErr result (λ back. back ≡ cut) }
    {
        let Ok(sums) = StatedSums::of(alloc, size, &cut) else {
            return Err(cut);
        };
        match self.add_stated(KeptCut::Given(cut), sums) {
            Ok(number) => Ok(number),
            Err(KeptCut::Given(cut)) => Err(cut),
            Err(_) => unreachable!(),
        }
    }

    // Adds a cut that is stored with its duals, with its sums, under the next number. If it is from a hub set, that set
    // has no cut yet.
    //
    // If the cut is not added, it is returned, and the pool stays as it was.
    fn add_stated(&mut self, cut: KeptCut, sums: StatedSums) -> Result<u64, KeptCut>
        requires stated { IsStated (kept_of cut) }
        requires part { sums.part ≡ kept_part (kept_of cut) }
        requires first_time { (hubs : List ℕ) → kept_set (kept_of cut) ≡ Some hubs → Lacks self.old.entries hubs }
        ensures number { IfOk result (λ c. c ≡ length self.old.entries + 1) }
        ensures added { OnOk result (self.new.entries
            ≡ self.old.entries ++ record { cut = kept_of cut; total = sums.total; loads = sums.loads } ∷ []) }
        ensures spare { OnOk result (self.old.spare ≤ self.new.spare + 1) }
        ensures refused { OnErr result (self.new.entries ≡ self.old.entries) }
        ensures given_back { IfErr result (λ back. kept_of back ≡ kept_of cut) }
    {
        let Ok(()) = self.reserve(1) else {
            return Err(cut);
        };
        let place = self.cuts.len();
        index_next(self.cuts.cuts(), &mut self.by_set, &cut);
        self.short = with_cut(self.short.take(), place == 0, sums.unit_loads());
        self.most_load = self.most_load.max(sums.most);
        self.units.put(sums.unit_total, sums.unit_row);
        self.cuts.put(cut, sums.total, sums.loads);
        Ok(place as u64 + 1)
    }

    /// The number of cuts.
    pub fn len(&self) -> u64
        ensures { result ≡ length self.now.entries }
    {
        self.cuts.len() as u64
    }

    /// The total of cut `c`, in 10^-12.
    pub fn total(&self, c: u64) -> u128
        requires { IsNumber self.now.entries c }
        ensures { result ≡ (entry_at self.now.entries c).total }
    {
        self.cuts.totals()[(c - 1) as usize]
    }

    /// The load of node `k` in cut `c`, in 10^-12.
    pub fn load(&self, c: u64, k: u32) -> u128
        requires number { IsNumber self.now.entries c }
        requires node { k < length (entry_at self.now.entries c).loads }
        ensures { result ≡ slice_index (entry_at self.now.entries c).loads k }
    {
        self.cuts.loads()[(c - 1) as usize][k as usize]
    }

    /// The data from which the duals of cut `c` can be made.
    pub fn cut(&self, c: u64) -> &KeptCut
        requires { IsNumber self.now.entries c }
        ensures { kept_of result.now ≡ (entry_at self.now.entries c).cut }
    {
        &self.cuts.cuts()[(c - 1) as usize]
    }

    /// The part of each cut, by number: 1 for all but Pareto-optimal and imported cuts.
    pub fn parts(&self) -> &[u32]
        ensures { result.now ≡ map entry_part self.now.entries }
    {
        self.cuts.parts()
    }

    /// The total of each cut, in 10^-12, by number.
    pub fn totals(&self) -> &[u128]
        ensures { result.now ≡ map (λ e. e.total) self.now.entries }
    {
        self.cuts.totals()
    }

    /// The loads of each cut, in 10^-12, by number.
    pub fn loads(&self) -> &[Vec<u128>]
        ensures { map (λ v. v.items) result.now ≡ map (λ e. e.loads) self.now.entries }
    {
        self.cuts.loads()
    }

    /// The total of each cut divided by its part, in 10^-12, rounded down, by number.
    pub fn unit_totals(&self) -> &[u128]
        ensures { result.now ≡ unit_totals self.now.entries }
    {
        self.units.totals()
    }

    /// The loads of each cut divided by its part, in 10^-12, rounded down, by number.
    pub fn unit_loads(&self, alloc: Global) -> Result<Vec<&[u128]>, AllocError>
        ensures { IfOk result (λ rows. map (λ row. row.now) rows.items ≡ unit_loads self.now.entries) }
    {
        let mut rows = Vec::with_capacity(alloc, self.cuts.len())?;
        for place in 0..self.cuts.len() {
            rows.push(self.unit_row(place))?;
        }
        Ok(rows)
    }

    // The loads of the cut at this place, counted from 0, for one unit of its part.
    fn unit_row(&self, place: usize) -> &[u128]
        requires { place < length self.now.entries }
        ensures { result.now ≡ unit_row (entry_at self.now.entries (place + 1)) }
    {
        let part = self.cuts.parts()[place];
        for_one_unit(part, &self.cuts.loads()[place], &self.units.rows()[place])
    }

    /// The greatest load of an explicit cut (Pareto-optimal or imported) divided by its part, in 10^-12, rounded down.
    /// It is 0 without such cuts.
    pub fn most_stated(&self) -> u128
        ensures { result ≡ most_stated self.now.entries }
    {
        self.most_load
    }

    /// The loads of the cuts divided by their parts, in 32 bits, if the pool has them: a row for each node, with one
    /// number for each cut.
    ///
    /// They are dropped for good where a cut has loads of more or fewer nodes than those before, or where memory for
    /// them runs out.
    pub fn short_loads(&self) -> Option<&ShortLoads>
        ensures { IfSome result (λ s. AreShortLoads self.now.entries s.now) }
    {
        self.short.as_ref()
    }

    /// The stored cuts of the pool. It allocates nothing.
    pub fn into_cuts(self) -> KeptCuts
        ensures cuts { result.cuts ≡ map (λ e. e.cut) self.entries }
        ensures totals { result.totals ≡ map (λ e. e.total) self.entries }
        ensures loads { result.loads ≡ map (λ e. e.loads) self.entries }
    {
        KeptCuts::of(self.cuts)
    }
}

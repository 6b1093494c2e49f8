//! Stored cuts, by number.

ghost use Rattle.std.specs.Prelude.{◌≡◌, ◌+◌, ◌-◌, ◌≤◌, [], ◌∷◌, ◌++◌, length, map, slice_index, option_map, IfOk, OnOk, OnErr};
ghost use Rattle.cut_pool.specs.Kept.{kept_of, kept_at, kept_part, kept_mark};

use crate::{CutStore, PackedValues};
use cut_model::{Mark, MarkedCut, StatedCut};
use hub_model::HubSet;
use std::alloc::{AllocError, Global};
use std::marker::Model;

/// A stored cut: the data from which its duals can be computed again, or the duals themselves.
#[derive(Drop)]
pub enum KeptCut {
    /// Dual values of the candidates for each commodity.
    Values(PackedValues),
    /// A hub set and an order of the other candidates.
    Set(HubSet, Vec<u32>),
    /// A Pareto-optimal cut of a hub set, with its mark.
    Core(MarkedCut),
    /// An imported cut, with its duals.
    Given(StatedCut),
}

impl KeptCut {
    /// The part of the cut.
    pub fn part(&self) -> u32
        ensures { result ≡ kept_part (kept_of self.now) }
    {
        match self {
            KeptCut::Values(_) => 1,
            KeptCut::Set(_, _) => 1,
            KeptCut::Core(marked) => marked.cut.part(),
            KeptCut::Given(cut) => cut.part(),
        }
    }

    /// The mark that proves the cut Pareto-optimal, if it has one.
    pub fn mark(&self) -> Option<&Mark>
        ensures { option_map (λ m. m.now) result ≡ kept_mark (kept_of self.now) }
    {
        match self {
            KeptCut::Core(marked) => Some(&marked.mark),
            _ => None,
        }
    }
}

/// The stored cuts of a search, numbered from 1 in the order in which they were stored. Each has its part, its total,
/// and its load of each node.
#[derive(Drop)]
pub struct KeptCuts {
    store: CutStore,
}

impl Model for KeptCuts {
    ghost use Rattle.cut_pool.specs.Kept.{KeptList};

    ghost Value = { KeptList };

    ghost view = { λ s. s.store.kept };
}

impl KeptCuts {
    /// No cuts. It allocates nothing.
    pub fn new(alloc: Global) -> KeptCuts
        ensures { result ≡ record { cuts = []; totals = []; loads = [] } }
    {
        KeptCuts {
            store: CutStore::new(alloc),
        }
    }

    /// The cuts of a store, numbered in its order. It allocates nothing.
    pub fn of(store: CutStore) -> KeptCuts
        ensures { result ≡ store.kept }
    {
        KeptCuts { store }
    }

    /// Stores the cut with these sums, under the next number. Where memory runs out, nothing is stored.
    pub fn keep(
        &mut self,
        alloc: Global,
        cut: KeptCut,
        total: u128,
        loads: &[u128],
    ) -> Result<u64, AllocError>
        ensures number { IfOk result (λ c. c ≡ length self.old.cuts + 1) }
        ensures kept { OnOk result (self.new ≡ record {
          cuts = self.old.cuts ++ kept_of cut ∷ [];
          totals = self.old.totals ++ total ∷ [];
          loads = self.old.loads ++ loads.now ∷ [];
        }) }
        ensures refused { OnErr result (self.new ≡ self.old) }
    {
        let row = loads.to_vec(alloc)?;
        self.store.reserve(1)?;
        self.store.put(cut, total, row);
        Ok(self.store.len() as u64)
    }

    /// The number of cuts.
    pub fn len(&self) -> u64
        ensures { result ≡ length self.now.cuts }
    {
        self.store.len() as u64
    }

    /// The cut with this number, counted from 1.
    pub fn cut(&self, c: u64) -> &KeptCut
        requires least { 1 ≤ c }
        requires most { c ≤ length self.now.cuts }
        ensures { kept_of result.now ≡ kept_at self.now.cuts c }
    {
        &self.store.cuts()[(c - 1) as usize]
    }

    /// The part of each cut, by number.
    pub fn parts(&self) -> &[u32]
        ensures value { result.now ≡ map kept_part self.now.cuts }
        ensures long { length result.now ≡ length self.now.cuts }
    {
        self.store.parts()
    }

    /// The total of each cut, in 10^-12, by number.
    pub fn totals(&self) -> &[u128]
        ensures value { result.now ≡ self.now.totals }
        ensures long { length result.now ≡ length self.now.cuts }
    {
        self.store.totals()
    }

    /// The loads of each cut, one for each node, in 10^-12, by number.
    pub fn loads(&self) -> &[Vec<u128>]
        ensures value { map (λ v. v.items) result.now ≡ self.now.loads }
        ensures long { length result.now ≡ length self.now.cuts }
    {
        self.store.loads()
    }
}

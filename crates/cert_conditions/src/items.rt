//! The items, one after another.

ghost use Rattle.std.specs.Prelude.{◌≡◌, ◌^◌, ◌-◌, ◌<◌, ◌⊎◌, IfSome, IfOk, IsOk, OnErr};
ghost use Rattle.cert_conditions.specs.Steps.{ends, failed_at, ended, passed, IsCut, IsTaken, Steps, MayCome, MayTake, listed_with, IsKnownWith, IsKnown};

use crate::checks::Checks;
use crate::kinds::Kind;
use cert_scan::Item;
use std::alloc::{AllocError, Global};

impl<'a> Checks<'a> {
    // Where a part is known, the dual whose line the item ends is feasible with that part.
    pub(crate) fn take_item(
        &mut self,
        alloc: Global,
        item: Item,
        known: Option<u32>,
    ) -> Result<(), AllocError>
        requires may { MayTake self.old item }
        requires known { IsKnown self.old item known }
        ensures steps { IfOk result (λ _. Steps self.old item self.new) }
        ensures instance { self.new.instance ≡ self.old.instance }
        ensures same { OnErr result (self.new ≡ self.old) }
        ensures no_memory { IsCut item ⊎ IsOk result }
    {
        if self.failure.is_some() {
            self.pass_over(item);
            return Ok(());
        }
        match item {
            Item::Cut {
                part,
                last: true,
                ..
            } => self.take_cut(alloc, part),
            Item::CoreHub { k, last: true } => self.take_mark(alloc, k),
            _ => {
                self.try_item(item, known);
                Ok(())
            }
        }
    }

    // An item that takes no memory, where no condition failed before.
    fn try_item(&mut self, item: Item, known: Option<u32>)
        requires room { self.old.line < 2 ^ 64 - 1 }
        requires may { MayCome self.old item }
        requires known { IfSome known (IsKnownWith (listed_with self.old item)) }
        requires no_cut { IsCut item → ⊥ }
        ensures taken { IsTaken self.old item self.new }
        ensures instance { self.new.instance ≡ self.old.instance }
    {
        match item {
            Item::Size { n, q } => self.take_size(n, q),
            Item::Cost(cost) => self.take_cost(cost),
            Item::Bound(bound) => self.take_bound(bound),
            Item::Hub { k, last } => self.take_hub(k, last),
            Item::Route { i, j, k, m } => self.take_route((i, j), (k, m)),
            Item::Cut {
                part,
                last: false,
                ..
            } => self.begin_mark(part),
            Item::CoreHub { k, last: false } => self.take_mark_hub(k),
            Item::Dual { i, j, run, a, last } => self.take_dual((i, j), run, a, last, known),
            Item::DualPair { k, u, last } => self.take_value(k, u, last, known),
            Item::Proof { t, g, last } => self.take_proof(t, g, last),
            Item::ProofPair { k, m, y, last } => self.take_way((k, m, y), last),
            Item::Nodes(_) => self.take_nodes(),
            Item::Branch(k) => self.take_branch(k),
            Item::Leaf { denom, last } => self.take_leaf(denom, last),
            Item::LeafPair { c, w, last } => self.take_weight(c, w, last),
            Item::Empty => self.take_empty(),
            Item::Block { i, j } => self.take_block((i, j)),
            Item::Count => self.take_count(),
            Item::Version(_)
            | Item::Cuts(_)
            | Item::Cut { .. }
            | Item::CoreHub { .. }
            | Item::End => self.end_line(None),
        }
    }

    // An item behind the first condition that failed.
    fn pass_over(&mut self, item: Item)
        requires { self.old.line < 2 ^ 64 - 1 }
        ensures { self.new ≡ passed self.old item }
    {
        if ends_line(item) {
            self.line += 1;
        }
    }

    // The line has ended, and this was found of it.
    pub(crate) fn end_line(&mut self, found: Option<Kind>)
        requires { self.old.line < 2 ^ 64 - 1 }
        ensures { self.new ≡ ended self.old found }
    {
        self.failure = with_line(found, self.line);
        self.line += 1;
    }
}

// What was found, with its line.
fn with_line(found: Option<Kind>, line: u64) -> Option<(Kind, u64)>
    ensures { result ≡ failed_at line found }
{
    match found {
        Some(kind) => Some((kind, line)),
        None => None,
    }
}

// Tells whether the item is the last of its line.
fn ends_line(item: Item) -> bool
    ensures { result ≡ ends item }
{
    match item {
        Item::Hub { last, .. }
        | Item::Cut { last, .. }
        | Item::CoreHub { last, .. }
        | Item::Dual { last, .. }
        | Item::DualPair { last, .. }
        | Item::Proof { last, .. }
        | Item::ProofPair { last, .. }
        | Item::Leaf { last, .. }
        | Item::LeafPair { last, .. } => last,
        _ => true,
    }
}

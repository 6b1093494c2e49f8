//! Whole lines of a certificate that is held in memory.

ghost use Rattle.std.specs.Prelude.{◌≡◌, ◌≤◌, ◌<◌, [], ◌∷◌, length, IfSome, IfOk};
ghost use Rattle.hub_spec.specs.Trees.{leaf_of};
ghost use Rattle.cert_spec.specs.Lines.{Item as LineOf, says_hubs, says_marked, says_dual, says_proof, says_tree};
ghost use Rattle.cert_scan.specs.Parts.{parts_of};
ghost use Rattle.cert_conditions.specs.ListLines.{line_of, HasItem, open_items, line_item, MayTakeLines, TakesLines, IsKnownLine};

use crate::checks::Checks;
use cert_scan::Item;
use cut_model::{DualProof, StatedDual};
use hub_model::Mix;
use std::alloc::{AllocError, Global};

/// A line with a list. Nodes count from 0, cuts from 1.
#[derive(Drop)]
pub enum ListLine<'a> {
    /// The hubs of the plan.
    Hubs(&'a [u32]),
    /// The marked cut of this number begins, with this part and the hubs of its mark.
    Mark {
        x: u32,
        part: u32,
        hubs: &'a [u32],
    },
    /// The dual of a run of commodities of one origin. The first of them is from `i` to `j`.
    Dual {
        i: u32,
        j: u32,
        run: u32,
        dual: StatedDual<'a>,
    },
    /// The proof of the dual before it.
    Proof(&'a DualProof),
    /// A leaf, with the weights of this mix and its denominator.
    Leaf {
        denom: u32,
        mix: &'a Mix,
    },
}

impl<'a> ListLine<'a> {
    // How many items the line gives before its last one.
    fn before_last(&self) -> usize
        requires { HasItem (line_of self.now) }
        ensures { result ≡ open_items (line_of self.now) }
    {
        match self {
            ListLine::Hubs(hubs) => hubs.len() - 1,
            ListLine::Mark { hubs, .. } => hubs.len(),
            ListLine::Dual { dual, .. } => dual.count(),
            ListLine::Proof(proof) => proof.ways().len(),
            ListLine::Leaf { mix, .. } => mix.count(),
        }
    }

    // The item of this place, counted from 0, which is the last one or not.
    fn item(&self, at: usize, last: bool) -> Item
        requires some { HasItem (line_of self.now) }
        requires place { at ≤ open_items (line_of self.now) }
        ensures { result ≡ line_item (line_of self.now) at last }
    {
        match self {
            ListLine::Hubs(hubs) => hub_item(hubs, at, last),
            ListLine::Mark { x, part, hubs } => mark_item(*x, *part, hubs, at, last),
            ListLine::Dual { i, j, run, dual } => dual_item((*i, *j), *run, dual, at, last),
            ListLine::Proof(proof) => proof_item(proof, at, last),
            ListLine::Leaf { denom, mix } => leaf_item(*denom, mix, at, last),
        }
    }
}

fn hub_item(hubs: &[u32], at: usize, last: bool) -> Item
    requires { at < length hubs.now }
    ensures { result ≡ line_item (says_hubs hubs.now) at last }
{
    Item::Hub { k: hubs[at], last }
}

fn mark_item(x: u32, part: u32, hubs: &[u32], at: usize, last: bool) -> Item
    requires { at ≤ length hubs.now }
    ensures { result ≡ line_item (says_marked x part hubs.now) at last }
{
    if at == 0 {
        return Item::Cut { x, part, last };
    }
    Item::CoreHub {
        k: hubs[at - 1],
        last,
    }
}

fn dual_item(commodity: (u32, u32), run: u32, dual: &StatedDual<'_>, at: usize, last: bool) -> Item
    requires { at ≤ length dual.now.u }
    ensures { result ≡ line_item (says_dual commodity run dual.now) at last }
{
    if at == 0 {
        return Item::Dual {
            i: commodity.0,
            j: commodity.1,
            run,
            a: dual.price(),
            last,
        };
    }
    let (k, u) = dual.value(at - 1);
    Item::DualPair { k, u, last }
}

fn proof_item(proof: &DualProof, at: usize, last: bool) -> Item
    requires { at ≤ length proof.now.ways }
    ensures { result ≡ line_item (says_proof proof.now) at last }
{
    if at == 0 {
        return Item::Proof {
            t: proof.turns(),
            g: proof.scale(),
            last,
        };
    }
    let (k, m, y) = proof.ways()[at - 1];
    Item::ProofPair { k, m, y, last }
}

fn leaf_item(denom: u32, mix: &Mix, at: usize, last: bool) -> Item
    requires { at ≤ length mix.now.weights }
    ensures { result ≡ line_item (says_tree (leaf_of denom mix.now.weights)) at last }
{
    if at == 0 {
        return Item::Leaf { denom, last };
    }
    let (c, w) = mix.weight(at - 1);
    Item::LeafPair { c, w, last }
}

impl<'a> Checks<'a> {
    /// Takes a line of this single item. Only one that begins a cut allocates.
    pub fn take_alone(&mut self, alloc: Global, item: Item) -> Result<(), AllocError>
        requires { (line : LineOf) × (parts_of line ≡ item ∷ []) × MayTakeLines self.old (line ∷ []) }
        ensures taken { (line : LineOf) → parts_of line ≡ item ∷ []
            → IfOk result (λ _. TakesLines self.old (line ∷ []) self.new) }
        ensures instance { self.new.instance ≡ self.old.instance }
    {
        self.take_item(alloc, item, None)
    }

    /// Takes a line with a list. Only one that begins a cut allocates.
    ///
    /// Where a part is known, the line is that of a dual. With that part the dual is feasible for each commodity of its run.
    pub fn take_line(
        &mut self,
        alloc: Global,
        line: &ListLine<'_>,
        known: Option<u32>,
    ) -> Result<(), AllocError>
        requires may { MayTakeLines self.old (line_of line.now ∷ []) }
        requires known { IfSome known (IsKnownLine self.old.instance.now (line_of line.now)) }
        ensures taken { IfOk result (λ _. TakesLines self.old (line_of line.now ∷ []) self.new) }
        ensures instance { self.new.instance ≡ self.old.instance }
    {
        let count = line.before_last();
        for at in 0..count {
            let item = line.item(at, false);
            self.take_item(alloc, item, None)?;
        }
        let item = line.item(count, true);
        self.take_item(alloc, item, known)
    }
}

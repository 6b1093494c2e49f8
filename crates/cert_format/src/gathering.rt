//! A certificate in the making, item by item.
ghost use Rattle.std.specs.Prelude.{◌≡◌, ◌<◌, ◌≤◌, ◌^◌, replicate, IfOk};
ghost use Rattle.cert_spec.specs.Stated.{Stated, IsStatedInRange};
ghost use Rattle.hub_spec.specs.Limits.{most_nodes};
ghost use Rattle.hub_spec.specs.Ranges.{IsDualInRange};
ghost use Rattle.cert_format.specs.Gathered.{with_duals};

use crate::begun::{BegunLine, LineHead};
use crate::begun_marks::BegunMark;
use crate::{Certificate, Heading};
use cert_scan::{Item, Version};
use cut_model::{DualProof, Mark, StatedCut};
use hub_model::{Mix, Plan, TreeLine, signed};
use std::alloc::{AllocError, Global};
use std::mem;

// The parts that items gave. Only the next line shows that a line has ended, so its dual, proof or leaf is put in only
// then.
#[derive(Drop)]
pub(crate) struct Gathering {
    pub(crate) version: Version,
    pub(crate) size: u32,
    pub(crate) candidates: u32,
    pub(crate) cost: u128,
    pub(crate) bound: u128,
    pub(crate) hubs: Vec<u32>,
    pub(crate) routes: Vec<(u32, u32)>,
    // The last may still lack duals.
    pub(crate) cuts: Vec<StatedCut>,
    // Of the cuts of which no more may come.
    pub(crate) marks: Vec<Option<Mark>>,
    pub(crate) last_mark: BegunMark,
    pub(crate) lines: Vec<TreeLine>,
    pub(crate) begun: BegunLine,
}

impl Gathering {
    ghost use Rattle.cert_format.specs.Gathered.{at_start, settled, whole, taken, first_taken, with_cut, MayTake, IsFit, all_gathered};
    ghost use Rattle.cert_format.specs.Gatherings.{gathered_of, standing_of};

    pub(crate) fn new(alloc: Global) -> Gathering
        ensures { standing_of result ≡ at_start }
    {
        Gathering {
            version: Version::First,
            size: 0,
            candidates: 0,
            cost: 0,
            bound: 0,
            hubs: Vec::new(alloc),
            routes: Vec::new(alloc),
            cuts: Vec::new(alloc),
            marks: Vec::new(alloc),
            last_mark: BegunMark::NoCut,
            lines: Vec::new(alloc),
            begun: BegunLine::new(alloc),
        }
    }

    // Takes the next item in.
    pub(crate) fn take(&mut self, alloc: Global, item: Item) -> Result<(), AllocError>
        requires { MayTake (standing_of self.old) item }
        ensures { IfOk result (λ _. standing_of self.new ≡ taken (standing_of self.old) item) }
    {
        match item {
            Item::DualPair { k, u, .. } => self.begun.list_value(k, u),
            Item::ProofPair { k, m, y, .. } => self.begun.list_way(k, m, y),
            Item::LeafPair { c, w, .. } => self.begun.list_weight(c, w),
            _ => {
                self.settle(alloc)?;
                self.take_first(alloc, item)
            }
        }
    }

    // Puts what was begun among the parts: no more of it comes.
    fn settle(&mut self, alloc: Global) -> Result<(), AllocError>
        requires { IsFit (standing_of self.old).begun }
        ensures { IfOk result (λ _. standing_of self.new ≡ whole (settled (standing_of self.old))) }
    {
        let head = self.begun.head;
        self.begun.head = LineHead::Nothing;
        match head {
            LineHead::Nothing => Ok(()),
            LineHead::Dual { run, price } => {
                add_duals(&mut self.cuts, run, price, &self.begun.values)
            }
            LineHead::Proof { turns, scale } => {
                let ways = self.begun.ways.to_vec(alloc)?;
                self.last_mark
                    .list_proof(DualProof::new(turns, scale, ways))
            }
            LineHead::Leaf(denominator) => {
                let weights = self.begun.weights.to_vec(alloc)?;
                let mix = Mix::new(signed(denominator as u128), weights);
                self.lines.push(TreeLine::Leaf(mix))?;
                Ok(())
            }
        }
    }

    // Takes an item that is the first of its line, or a hub.
    fn take_first(&mut self, alloc: Global, item: Item) -> Result<(), AllocError>
        requires { standing_of self.old ≡ whole (gathered_of self.old) }
        ensures { IfOk result (λ _. standing_of self.new ≡ first_taken (gathered_of self.old) item) }
    {
        match item {
            Item::Version(version) => self.version = version,
            Item::Size { n, q } => {
                self.size = n;
                self.candidates = q;
            }
            Item::Cost(cost) => self.cost = cost,
            Item::Bound(bound) => self.bound = bound,
            Item::Hub { k, .. } => self.hubs.push(k)?,
            Item::Route { k, m, .. } => self.routes.push((k, m))?,
            Item::Cut { part, last, .. } => {
                self.end_cut()?;
                self.last_mark = BegunMark::begin(alloc, last);
                self.cuts.push(StatedCut::new(alloc, part))?;
            }
            Item::CoreHub { k, .. } => self.last_mark.list_hub(k)?,
            Item::Dual { run, a, .. } => self.begun.begin_dual(run, a),
            Item::Proof { t, g, .. } => self.begun.begin_proof(t, g),
            Item::Nodes(_) => self.end_cut()?,
            Item::Branch(k) => self.lines.push(TreeLine::BranchOn(k))?,
            Item::Leaf { denom, .. } => self.begun.begin_leaf(denom),
            Item::Empty => self.lines.push(TreeLine::Empty)?,
            Item::Block { i, j } => self.lines.push(TreeLine::Block { i, j })?,
            Item::Count => self.lines.push(TreeLine::Count)?,
            _ => {}
        }
        Ok(())
    }

    // No more of the last cut comes, if there is one.
    fn end_cut(&mut self) -> Result<(), AllocError>
        ensures parts { IfOk result (λ _. gathered_of self.new ≡ with_cut (gathered_of self.old)) }
        ensures begun { IfOk result (λ _. self.new.begun ≡ self.old.begun) }
    {
        trim_last(&mut self.cuts);
        mem::replace(&mut self.last_mark, BegunMark::NoCut).put_behind(&mut self.marks)
    }

    // The certificate of which all items were taken in.
    pub(crate) fn finish(self) -> Certificate
        requires { (k : Stated) × IsStatedInRange k × (gathered_of self ≡ all_gathered k) }
        ensures { (k : Stated) → IsStatedInRange k → gathered_of self ≡ all_gathered k → result ≡ k }
    {
        let Gathering {
            version,
            size,
            candidates,
            cost,
            bound,
            hubs,
            routes,
            cuts,
            marks,
            lines,
            ..
        } = self;
        let plan = Plan::new(hubs, routes);
        let heading = Heading {
            version,
            size,
            candidates,
            cost,
            bound,
        };
        Certificate::new(heading, plan, cuts, marks, lines)
    }
}

// Adds the dual of a run of so many commodities, with this price and these nodes with their values, to the last cut.
fn add_duals(
    cuts: &mut Vec<StatedCut>,
    run: u32,
    price: u128,
    values: &[(u32, u128)],
) -> Result<(), AllocError>
    requires some { 1 ≤ run }
    requires dual { IsDualInRange most_nodes (record { a = price; u = values.now }) }
    ensures { IfOk result (λ _.
        cuts.new.items ≡ with_duals cuts.old.items (replicate run (record { a = price; u = values.now }))) }
{
    if cuts.is_empty() {
        return Ok(());
    }
    let last = cuts.len() - 1;
    cuts[last].add_listed(run, price, values)
}

// Gives back the memory that the last cut took for duals to come: it has all of its duals.
fn trim_last(cuts: &mut Vec<StatedCut>)
    ensures { cuts.new.items ≡ cuts.old.items }
{
    if cuts.is_empty() {
        return;
    }
    let last = cuts.len() - 1;
    cuts[last].trim();
}

//! The conditions of a certificate, tested as its items arrive.

ghost use Rattle.std.specs.Prelude.{◌≡◌, ◌++◌, ◌⊎◌, List, [], ◌∷◌, flat_map, IfOk, IsOk, OnErr};
ghost use Rattle.cert_spec.specs.Lines.{Item as LineOf};
ghost use Rattle.cert_spec.specs.Grammar.{Stage, Leads, want_version};
ghost use Rattle.cert_spec.specs.Conditions.{AllHold, conditions_from, conditions};
ghost use Rattle.cert_spec.specs.Progress.{at_start, after_lines};
ghost use Rattle.cert_spec.specs.Stated.{Stated, IsStatedInRange};
ghost use Rattle.cert_scan.specs.Given.{IsGiven};
ghost use Rattle.cert_scan.specs.Parts.{parts_of, items_of};
ghost use Rattle.cert_scan.specs.declared.items.Item.{Item as ItemOf};
ghost use Rattle.cert_conditions.specs.Steps.{IsCut};
ghost use Rattle.cert_conditions.specs.Taken.{HasTaken, TellsFirst};

use crate::cut_lists::CutList;
use crate::kinds::Kind;
use crate::marks::MarkLine;
use cert_lines::{LeafSums, PlanSums, TreePath};
use cert_scan::Item;
use dual_lines::DualLine;
use hub_model::Instance;
use std::alloc::{AllocError, Global};

/// The check of a certificate of an instance, of which some items have come. Amounts are in 10^-12.
#[derive(Drop)]
pub struct Checks<'a> {
    pub(crate) instance: &'a Instance,
    // The number of the line in which the next item stands, counted from 1.
    pub(crate) line: u64,
    pub(crate) cost: u128,
    pub(crate) bound: u128,
    pub(crate) plan: PlanSums,
    // Whether each hub so far is a candidate.
    pub(crate) are_candidates: bool,
    // Those of the whole cuts, and while a cut stands, its own behind them, each with its part.
    pub(crate) cuts: CutList,
    pub(crate) dual: DualLine<'a>,
    // The mark of the cut that stands or begins, if it is marked, and the proof of its last dual.
    pub(crate) mark: MarkLine<'a>,
    pub(crate) path: TreePath,
    pub(crate) leaf: LeafSums,
    // What fails of the leaf's weights so far: their cuts' numbers, or else the multiples of parts, or else their sum.
    pub(crate) leaf_failure: Option<Kind>,
    pub(crate) failure: Option<(Kind, u64)>,
}

impl<'a> Checks<'a> {
    /// The check of a certificate of this instance, of which no item has come.
    pub fn new(alloc: Global, instance: &'a Instance) -> Result<Checks<'a>, AllocError>
        ensures begun { IfOk result (λ checks. HasTaken [] checks) }
        ensures instance { IfOk result (λ checks. checks.instance.now ≡ instance.now) }
    {
        // What is known of an instance comes with its size.
        let nodes = instance.size();
        prove!(nodes > 0);
        Ok(Checks {
            instance,
            line: 1,
            cost: 0,
            bound: 0,
            plan: PlanSums::new(alloc, instance)?,
            are_candidates: true,
            cuts: CutList::new(alloc),
            dual: DualLine::new(alloc, instance)?,
            mark: MarkLine::new(alloc, instance)?,
            path: TreePath::new(alloc, instance)?,
            leaf: LeafSums::new(alloc, instance)?,
            leaf_failure: None,
            failure: None,
        })
    }

    /// Takes the next item. Only the last one of a line that begins a cut allocates: the sums of that cut. Where memory
    /// runs out, nothing changes.
    ///
    /// The items with this one are as a scan gives them.
    pub fn take(&mut self, alloc: Global, item: Item) -> Result<(), AllocError>
        requires { (given : List ItemOf) × HasTaken given self.old × IsGiven (given ++ item ∷ []) }
        ensures taken { (given : List ItemOf) → HasTaken given self.old → IsGiven (given ++ item ∷ [])
            → IfOk result (λ _. HasTaken (given ++ item ∷ []) self.new) }
        ensures instance { self.new.instance ≡ self.old.instance }
        ensures same { OnErr result (self.new ≡ self.old) }
        ensures no_memory { IsCut item ⊎ IsOk result }
    {
        self.take_item(alloc, item, None)
    }

    /// The instance.
    pub fn instance(&self) -> &'a Instance
        ensures { result ≡ self.now.instance }
    {
        self.instance
    }

    /// The first condition that fails of those that the whole lines so far test, with its line.
    pub fn first_failure(&self) -> Option<(Kind, u64)>
        ensures lines { (lines : List LineOf) (stage : Stage) → Leads want_version lines stage
            → HasTaken (flat_map parts_of lines) self.now
            → TellsFirst (conditions_from self.now.instance.now at_start lines) result }
        ensures certificate { (k : Stated) → IsStatedInRange k → HasTaken (items_of k) self.now
            → TellsFirst (conditions self.now.instance.now k) result }
    {
        self.failure
    }

    /// The stated bound, once the text has stated it and no condition has failed.
    pub fn bound(&self) -> u128
        ensures lines { (lines : List LineOf) (stage : Stage) → Leads want_version lines stage
            → HasTaken (flat_map parts_of lines) self.now → AllHold (conditions_from self.now.instance.now at_start lines)
            → result ≡ (after_lines self.now.instance.now at_start lines).bound }
        ensures certificate { (k : Stated) → IsStatedInRange k → HasTaken (items_of k) self.now
            → AllHold (conditions self.now.instance.now k) → result ≡ k.proof.bound }
    {
        self.bound
    }

    /// The stated cost, once the text has stated it and no condition has failed.
    pub fn cost(&self) -> u128
        ensures lines { (lines : List LineOf) (stage : Stage) → Leads want_version lines stage
            → HasTaken (flat_map parts_of lines) self.now → AllHold (conditions_from self.now.instance.now at_start lines)
            → result ≡ (after_lines self.now.instance.now at_start lines).cost }
        ensures certificate { (k : Stated) → IsStatedInRange k → HasTaken (items_of k) self.now
            → AllHold (conditions self.now.instance.now k) → result ≡ k.proof.cost }
    {
        self.cost
    }
}

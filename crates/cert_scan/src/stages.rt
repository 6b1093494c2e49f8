//! The stage of the text: what its next line must be.
ghost use Rattle.std.specs.Prelude.{◌≡◌, ◌-◌};
ghost use Rattle.cert_scan.specs.Moves.{
  next_commodity_of,
  stage_after_route,
  stage_after_cuts,
  stage_after_cut,
  first_dual_of,
  stage_after_dual,
  first_proved_of,
  stage_after_proof,
  subject_run,
  stage_after_subject,
  stage_after_tree,
  stage_after_filled,
  may_fill,
};

use crate::items::Version;

// What the first lines say of the others: the version, and the number of nodes.
#[derive(Clone, Copy)]
pub(crate) struct Shape {
    pub version: Version,
    pub n: u32,
}

// The nodes of a commodity, from the first to the last.
#[derive(Clone, Copy)]
pub(crate) struct Commodity {
    pub from: u32,
    pub to: u32,
}

// The next dual is of this commodity, in the cut behind so many others.
#[derive(Clone, Copy)]
pub(crate) struct DualAt {
    pub all: u32,
    pub before: u32,
    pub commodity: Commodity,
}

// A dual is of so many commodities of one origin, from the first on.
#[derive(Clone, Copy)]
pub(crate) struct LineRun {
    pub first: DualAt,
    pub length: u32,
}

// What the line of a dual is of: a run of a cut, or a commodity of a marked cut, whose proof stands on the next line.
#[derive(Clone, Copy)]
pub(crate) enum Subject {
    Plain(LineRun),
    Proved(DualAt),
}

// The cut of this number, of so many in all, has this part and is marked.
#[derive(Clone, Copy)]
pub(crate) struct MarkAt {
    pub all: u32,
    pub number: u32,
    pub part: u32,
}

// The next way of the proof of this dual stands behind the one between these nodes, which count from 1, and are 0 where
// there is none.
#[derive(Clone, Copy)]
pub(crate) struct WaysAt {
    pub dual: DualAt,
    pub from: u32,
    pub to: u32,
}

// How many places of the tree are still to be filled, and tree lines still to come.
#[derive(Clone, Copy)]
pub(crate) struct TreeAt {
    pub places: u32,
    pub left: u32,
}

#[derive(Clone, Copy)]
pub(crate) enum Stage {
    Version,
    Size,
    Cost,
    Bound,
    Hubs,
    Route(Commodity),
    Cuts,
    // How many cuts there are to be, and stand already.
    Cut(u32, u32),
    Dual(DualAt),
    // The next dual of a marked cut.
    ProvedDual(DualAt),
    // The proof of that dual.
    Proof(DualAt),
    Nodes,
    Tree(TreeAt),
    End,
    Nothing,
}

// The commodity of no nodes before.
pub(crate) const FIRST: Commodity = Commodity { from: 0, to: 0 };

// The commodity behind so many of one origin, from this one on.
fn next_commodity(n: u32, length: u32, commodity: Commodity) -> Option<Commodity>
    ensures { result ≡ next_commodity_of n length commodity }
{
    let Commodity { from, to } = commodity;
    let next = to as u64 + length as u64;
    if next < n as u64 {
        return Some(Commodity {
            from,
            to: next as u32,
        });
    }
    if from < n.saturating_sub(1) {
        return Some(Commodity {
            from: from + 1,
            to: 0,
        });
    }
    None
}

pub(crate) fn after_route(n: u32, commodity: Commodity) -> Stage
    ensures { result ≡ stage_after_route n commodity }
{
    match next_commodity(n, 1, commodity) {
        Some(next) => Stage::Route(next),
        None => Stage::Cuts,
    }
}

// What is wanted where so many cuts are to come.
pub(crate) fn after_cuts(all: u32) -> Stage
    ensures { result ≡ stage_after_cuts all }
{
    if all > 0 {
        Stage::Cut(all, 0)
    } else {
        Stage::Nodes
    }
}

// What is wanted after the cut behind so many others.
fn after_cut(all: u32, before: u32) -> Stage
    ensures { result ≡ stage_after_cut all before }
{
    if before < all.saturating_sub(1) {
        Stage::Cut(all, before + 1)
    } else {
        Stage::Nodes
    }
}

// What is wanted where the duals of a cut begin, behind so many others.
pub(crate) fn first_dual(all: u32, before: u32) -> Stage
    ensures { result ≡ first_dual_of all before }
{
    Stage::Dual(DualAt {
        all,
        before,
        commodity: FIRST,
    })
}

fn after_dual(n: u32, run: LineRun) -> Stage
    ensures { result ≡ stage_after_dual n run }
{
    let DualAt {
        all,
        before,
        commodity,
    } = run.first;
    match next_commodity(n, run.length, commodity) {
        Some(commodity) => Stage::Dual(DualAt {
            all,
            before,
            commodity,
        }),
        None => after_cut(all, before),
    }
}

// The commodities that the line of a dual is of.
pub(crate) fn run_of(subject: Subject) -> LineRun
    ensures { result ≡ subject_run subject }
{
    match subject {
        Subject::Plain(run) => run,
        Subject::Proved(first) => LineRun { first, length: 1 },
    }
}

pub(crate) fn after_subject(n: u32, subject: Subject) -> Stage
    ensures { result ≡ stage_after_subject n subject }
{
    match subject {
        Subject::Plain(run) => after_dual(n, run),
        Subject::Proved(at) => Stage::Proof(at),
    }
}

// What is wanted where the duals of a marked cut begin, behind so many other cuts.
pub(crate) fn first_proved(all: u32, before: u32) -> Stage
    ensures { result ≡ first_proved_of all before }
{
    Stage::ProvedDual(DualAt {
        all,
        before,
        commodity: FIRST,
    })
}

pub(crate) fn after_proof(n: u32, at: DualAt) -> Stage
    ensures { result ≡ stage_after_proof n at }
{
    let DualAt {
        all,
        before,
        commodity,
    } = at;
    match next_commodity(n, 1, commodity) {
        Some(commodity) => Stage::ProvedDual(DualAt {
            all,
            before,
            commodity,
        }),
        None => after_cut(all, before),
    }
}

// What is wanted after a tree line that leaves these places and lines.
pub(crate) fn after_tree(places: u32, left: u32) -> Stage
    ensures { result ≡ stage_after_tree places left }
{
    if left == 0 {
        Stage::End
    } else {
        Stage::Tree(TreeAt { places, left })
    }
}

// What is wanted after a tree line that is no branch.
pub(crate) fn after_filled(at: TreeAt) -> Stage
    ensures { result ≡ stage_after_filled at }
{
    after_tree(at.places.saturating_sub(1), at.left.saturating_sub(1))
}

// Whether a line that is no branch leaves no more places than lines, and some place where a line is left.
pub(crate) fn may_be_filled(at: TreeAt) -> bool
    ensures { result ≡ may_fill at }
{
    let places = at.places.saturating_sub(1);
    let left = at.left.saturating_sub(1);
    places <= left && (places != 0 || left == 0)
}

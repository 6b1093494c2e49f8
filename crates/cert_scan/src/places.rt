//! The numbers of a line: the place of each, and its effect on the line.
ghost use Rattle.std.specs.Prelude.{◌≡◌, ◌+◌, nat_eq};
ghost use Rattle.cert_spec.specs.Reading.{is_short};
ghost use Rattle.cert_scan.specs.Moves.{
  refusal,
  more_by,
  whole_by,
  open_by,
  allowed,
  amount_limit,
  cut_by,
  taken_by,
};
ghost use Rattle.cert_scan.specs.declared.places.Place.TheVariants.{
  VersionNumber,
  NodeCount,
  CandidateCount,
  HubNode,
  RouteFirst,
  RouteLast,
  CutCount,
  CutNumber,
  CutPart,
  RunLength,
  DualPrice,
  ValueNode,
  ValueAmount,
  LineCount,
  BranchNode,
  BlockFrom,
  BlockTo,
  Denominator,
  WeightCut,
  WeightAmount,
};

use crate::bytes::{Position, ScanMove};
use crate::items::{Item, Version};
use crate::marks::{
    end_part, take_mark_hub, take_scale, take_taken, take_turns, take_way_from, take_way_to,
};
use crate::stages::{
    Commodity, DualAt, FIRST, LineRun, MarkAt, Shape, Stage, Subject, TreeAt, WaysAt, after_cuts,
    after_filled, after_route, after_subject, after_tree, first_dual, may_be_filled, run_of,
};
use hub_model::{MOST_CUTS, MOST_DENOMINATOR, MOST_NODES, MOST_TREE_LINES};

// Of a cut's part.
const MOST_PART: u128 = 1000;

// A number of at most 30 digits is below this.
const SHORT_LIMIT: u128 = 1_000_000_000_000_000_000_000_000_000_000;

// A number of at most 33 digits is below this.
const LONG_LIMIT: u128 = 1_000_000_000_000_000_000_000_000_000_000_000;

// What the next number of a line is. Nodes and cuts are numbered from 1, as in the text.
#[derive(Clone, Copy)]
pub(crate) enum Place {
    VersionNumber,
    NodeCount,
    // The number of nodes.
    CandidateCount(u32),
    CostAmount,
    BoundAmount,
    // The hub before it, 0 for none.
    HubNode(u32),
    RouteFrom(Commodity),
    RouteTo(Commodity),
    RouteFirst(Commodity),
    // The first hub of the route.
    RouteLast(Commodity, u32),
    CutCount,
    // How many cuts there are to be, and stand already.
    CutNumber(u32, u32),
    // How many cuts there are to be, and the number of this one.
    CutPart(u32, u32),
    // The hub of the mark before it, 0 for none.
    MarkHub(MarkAt, u32),
    DualFrom(DualAt),
    DualTo(DualAt),
    RunFrom(DualAt),
    RunTo(DualAt),
    RunLength(DualAt),
    ProvedFrom(DualAt),
    ProvedTo(DualAt),
    DualPrice(Subject),
    // The node before it, 0 for none.
    ValueNode(Subject, u32),
    // Its node.
    ValueAmount(Subject, u32),
    ProofTurns(DualAt),
    // The turns.
    ProofScale(DualAt, u32),
    WayFrom(WaysAt),
    // The first node of the way.
    WayTo(WaysAt, u32),
    // The nodes are those of the way itself.
    WayTaken(WaysAt),
    LineCount,
    BranchNode(TreeAt),
    BlockFrom(TreeAt),
    // The first node of the commodity.
    BlockTo(TreeAt, u32),
    Denominator(TreeAt),
    // The cut before it, 0 for none.
    WeightCut(TreeAt, u128),
    // Its cut.
    WeightAmount(TreeAt, u128),
}

// The line is not as wanted, and ends here or not.
pub(crate) fn refused(last: bool) -> ScanMove
    ensures { result ≡ refusal last }
{
    let position = if last {
        Position::Failed
    } else {
        Position::Spoiled
    };
    ScanMove {
        position,
        item: None,
    }
}

// Another number must stand behind.
pub(crate) fn more(last: bool, place: Place) -> ScanMove
    ensures { result ≡ more_by last place }
{
    let position = if last {
        Position::Failed
    } else {
        Position::Number(place, None)
    };
    ScanMove {
        position,
        item: None,
    }
}

// The line must end here.
pub(crate) fn whole(last: bool, item: Option<Item>, stage: Stage) -> ScanMove
    ensures { result ≡ whole_by last item stage }
{
    if last {
        ScanMove {
            position: Position::Start(stage),
            item,
        }
    } else {
        ScanMove {
            position: Position::Spoiled,
            item: None,
        }
    }
}

// The line may end here, or go on.
pub(crate) fn open(last: bool, item: Item, place: Place, stage: Stage) -> ScanMove
    ensures { result ≡ open_by last item place stage }
{
    let position = if last {
        Position::Start(stage)
    } else {
        Position::Number(place, None)
    };
    ScanMove {
        position,
        item: Some(item),
    }
}

// Takes the number at a place of a text of this shape; `last` says that the line ends behind it.
pub(crate) fn take(shape: Shape, place: Place, value: u128, last: bool) -> ScanMove
    ensures { result ≡ taken_by shape place value last }
{
    match place {
        Place::VersionNumber => take_version(shape, value, last),
        Place::NodeCount => take_nodes(shape, value, last),
        Place::CandidateCount(nodes) => take_candidates(shape, nodes, value, last),
        Place::CostAmount => take_short(Item::Cost(value), Stage::Bound, value, last),
        Place::BoundAmount => take_short(Item::Bound(value), Stage::Hubs, value, last),
        Place::HubNode(before) => take_hub(shape, before, value, last),
        Place::RouteFrom(commodity) => take_node(
            commodity.from,
            Place::RouteTo(commodity),
            value,
            last,
        ),
        Place::RouteTo(commodity) => take_node(
            commodity.to,
            Place::RouteFirst(commodity),
            value,
            last,
        ),
        Place::RouteFirst(commodity) => take_first(shape, commodity, value, last),
        Place::RouteLast(commodity, k) => take_last(shape, commodity, k, value, last),
        Place::CutCount => take_cut_count(shape, value, last),
        Place::CutNumber(all, before) => take_cut(shape, all, before, value, last),
        Place::CutPart(all, number) => take_part(shape, all, number, value, last),
        Place::MarkHub(at, before) => take_mark_hub(shape, at, before, value, last),
        Place::DualFrom(at) => take_node(at.commodity.from, Place::DualTo(at), value, last),
        Place::DualTo(at) => {
            let alone = LineRun {
                first: at,
                length: 1,
            };
            let subject = Subject::Plain(alone);
            take_node(at.commodity.to, Place::DualPrice(subject), value, last)
        }
        Place::RunFrom(at) => take_node(at.commodity.from, Place::RunTo(at), value, last),
        Place::RunTo(at) => take_node(at.commodity.to, Place::RunLength(at), value, last),
        Place::RunLength(at) => take_run_length(shape, at, value, last),
        Place::ProvedFrom(at) => take_node(at.commodity.from, Place::ProvedTo(at), value, last),
        Place::ProvedTo(at) => {
            let subject = Subject::Proved(at);
            take_node(at.commodity.to, Place::DualPrice(subject), value, last)
        }
        Place::DualPrice(subject) => take_price(shape, subject, value, last),
        Place::ValueNode(subject, before) => take_value_node(shape, subject, before, value, last),
        Place::ValueAmount(subject, number) => take_value(shape, subject, number, value, last),
        Place::ProofTurns(at) => take_turns(shape, at, value, last),
        Place::ProofScale(at, turns) => take_scale(shape, at, turns, value, last),
        Place::WayFrom(at) => take_way_from(shape, at, value, last),
        Place::WayTo(at, from) => take_way_to(shape, at, from, value, last),
        Place::WayTaken(at) => take_taken(shape, at, value, last),
        Place::LineCount => take_line_count(shape, value, last),
        Place::BranchNode(at) => take_branch(shape, at, value, last),
        Place::BlockFrom(at) => take_block_from(shape, at, value, last),
        Place::BlockTo(at, i) => take_block_to(shape, at, i, value, last),
        Place::Denominator(at) => take_denominator(shape, at, value, last),
        Place::WeightCut(at, before) => take_weight_cut(shape, at, before, value, last),
        Place::WeightAmount(at, number) => take_weight(shape, at, number, value, last),
    }
}

fn take_version(shape: Shape, value: u128, last: bool) -> ScanMove
    ensures { result ≡ taken_by shape VersionNumber value last }
{
    if value == 1 {
        return whole(last, Some(Item::Version(Version::First)), Stage::Size);
    }
    if value == 2 {
        return whole(last, Some(Item::Version(Version::Second)), Stage::Size);
    }
    if value == 3 {
        return whole(last, Some(Item::Version(Version::Third)), Stage::Size);
    }
    refused(last)
}

fn take_nodes(shape: Shape, value: u128, last: bool) -> ScanMove
    ensures { result ≡ taken_by shape NodeCount value last }
{
    if value < 1 || value > MOST_NODES as u128 {
        return refused(last);
    }
    more(last, Place::CandidateCount(value as u32))
}

fn take_candidates(shape: Shape, nodes: u32, value: u128, last: bool) -> ScanMove
    ensures { result ≡ taken_by shape (CandidateCount nodes) value last }
{
    if value < 1 || value > nodes as u128 {
        return refused(last);
    }
    let size = Item::Size {
        n: nodes,
        q: value as u32,
    };
    whole(last, Some(size), Stage::Cost)
}

// An amount that is no dual's.
fn take_short(item: Item, stage: Stage, value: u128, last: bool) -> ScanMove
    ensures { result ≡ allowed (is_short value) last (whole_by last (Some item) stage) }
{
    if value >= SHORT_LIMIT {
        return refused(last);
    }
    whole(last, Some(item), stage)
}

fn take_hub(shape: Shape, before: u32, value: u128, last: bool) -> ScanMove
    ensures { result ≡ taken_by shape (HubNode before) value last }
{
    if value <= before as u128 || value > shape.n as u128 {
        return refused(last);
    }
    let number = value as u32;
    let hub = Item::Hub {
        k: number - 1,
        last,
    };
    open(last, hub, Place::HubNode(number), Stage::Route(FIRST))
}

// A number that must be that of this node.
fn take_node(node: u32, next: Place, value: u128, last: bool) -> ScanMove
    ensures { result ≡ allowed (nat_eq value (node + 1)) last (more_by last next) }
{
    if value != node as u128 + 1 {
        return refused(last);
    }
    more(last, next)
}

fn take_first(shape: Shape, commodity: Commodity, value: u128, last: bool) -> ScanMove
    ensures { result ≡ taken_by shape (RouteFirst commodity) value last }
{
    if value < 1 || value > shape.n as u128 {
        return refused(last);
    }
    more(last, Place::RouteLast(commodity, value as u32 - 1))
}

fn take_last(shape: Shape, commodity: Commodity, k: u32, value: u128, last: bool) -> ScanMove
    ensures { result ≡ taken_by shape (RouteLast commodity k) value last }
{
    if value < 1 || value > shape.n as u128 {
        return refused(last);
    }
    let Commodity { from, to } = commodity;
    let route = Item::Route {
        i: from,
        j: to,
        k,
        m: value as u32 - 1,
    };
    whole(last, Some(route), after_route(shape.n, commodity))
}

fn take_cut_count(shape: Shape, value: u128, last: bool) -> ScanMove
    ensures { result ≡ taken_by shape CutCount value last }
{
    if value > MOST_CUTS as u128 {
        return refused(last);
    }
    let all = value as u32;
    whole(last, Some(Item::Cuts(all)), after_cuts(all))
}

fn take_cut(shape: Shape, all: u32, before: u32, value: u128, last: bool) -> ScanMove
    ensures { result ≡ taken_by shape (CutNumber all before) value last }
{
    if value != before as u128 + 1 || value > MOST_CUTS as u128 {
        return refused(last);
    }
    begin_cut(shape.version, all, value as u32, last)
}

// A cut of the first version is whole with its number, and has the part 1.
fn begin_cut(version: Version, all: u32, number: u32, last: bool) -> ScanMove
    ensures { result ≡ cut_by version all number last }
{
    match version {
        Version::First => {
            let first_cut = Item::Cut {
                x: number,
                part: 1,
                last,
            };
            whole(
                last,
                Some(first_cut),
                first_dual(all, number.saturating_sub(1)),
            )
        }
        Version::Second | Version::Third => more(last, Place::CutPart(all, number)),
    }
}

fn take_part(shape: Shape, all: u32, number: u32, value: u128, last: bool) -> ScanMove
    ensures { result ≡ taken_by shape (CutPart all number) value last }
{
    if value < 1 || value > MOST_PART {
        return refused(last);
    }
    let at = MarkAt {
        all,
        number,
        part: value as u32,
    };
    end_part(shape.version, at, last)
}

// A run has more than one commodity, all of one origin.
fn take_run_length(shape: Shape, first: DualAt, value: u128, last: bool) -> ScanMove
    ensures { result ≡ taken_by shape (RunLength first) value last }
{
    let most = shape.n.saturating_sub(first.commodity.to);
    if value < 2 || value > most as u128 {
        return refused(last);
    }
    let run = LineRun {
        first,
        length: value as u32,
    };
    more(last, Place::DualPrice(Subject::Plain(run)))
}

// What an amount of a dual is below.
fn limit_of_amounts(version: Version) -> u128
    ensures { result ≡ amount_limit version }
{
    match version {
        Version::First => SHORT_LIMIT,
        Version::Second | Version::Third => LONG_LIMIT,
    }
}

fn take_price(shape: Shape, subject: Subject, value: u128, last: bool) -> ScanMove
    ensures { result ≡ taken_by shape (DualPrice subject) value last }
{
    if value >= limit_of_amounts(shape.version) {
        return refused(last);
    }
    let run = run_of(subject);
    let Commodity { from, to } = run.first.commodity;
    let dual = Item::Dual {
        i: from,
        j: to,
        run: run.length,
        a: value,
        last,
    };
    open(
        last,
        dual,
        Place::ValueNode(subject, 0),
        after_subject(shape.n, subject),
    )
}

fn take_value_node(shape: Shape, subject: Subject, before: u32, value: u128, last: bool) -> ScanMove
    ensures { result ≡ taken_by shape (ValueNode subject before) value last }
{
    if value <= before as u128 || value > shape.n as u128 {
        return refused(last);
    }
    more(last, Place::ValueAmount(subject, value as u32))
}

pub(crate) fn take_value(
    shape: Shape,
    subject: Subject,
    number: u32,
    value: u128,
    last: bool,
) -> ScanMove
    ensures { result ≡ taken_by shape (ValueAmount subject number) value last }
{
    if value < 1 || value >= limit_of_amounts(shape.version) {
        return refused(last);
    }
    let pair = Item::DualPair {
        k: number.saturating_sub(1),
        u: value,
        last,
    };
    open(
        last,
        pair,
        Place::ValueNode(subject, number),
        after_subject(shape.n, subject),
    )
}

fn take_line_count(shape: Shape, value: u128, last: bool) -> ScanMove
    ensures { result ≡ taken_by shape LineCount value last }
{
    if value < 1 || value > MOST_TREE_LINES as u128 {
        return refused(last);
    }
    let left = value as u32;
    whole(
        last,
        Some(Item::Nodes(left)),
        Stage::Tree(TreeAt { places: 1, left }),
    )
}

fn take_branch(shape: Shape, at: TreeAt, value: u128, last: bool) -> ScanMove
    ensures { result ≡ taken_by shape (BranchNode at) value last }
{
    let left = at.left.saturating_sub(1);
    if value < 1 || value > shape.n as u128 || at.places >= left {
        return refused(last);
    }
    let node = Item::Branch(value as u32 - 1);
    whole(last, Some(node), after_tree(at.places + 1, left))
}

fn take_block_from(shape: Shape, at: TreeAt, value: u128, last: bool) -> ScanMove
    ensures { result ≡ taken_by shape (BlockFrom at) value last }
{
    if value < 1 || value > shape.n as u128 {
        return refused(last);
    }
    more(last, Place::BlockTo(at, value as u32 - 1))
}

fn take_block_to(shape: Shape, at: TreeAt, i: u32, value: u128, last: bool) -> ScanMove
    ensures { result ≡ taken_by shape (BlockTo at i) value last }
{
    if value < 1 || value > shape.n as u128 || !may_be_filled(at) {
        return refused(last);
    }
    let block = Item::Block {
        i,
        j: value as u32 - 1,
    };
    whole(last, Some(block), after_filled(at))
}

fn take_denominator(shape: Shape, at: TreeAt, value: u128, last: bool) -> ScanMove
    ensures { result ≡ taken_by shape (Denominator at) value last }
{
    if value < 1 || value > MOST_DENOMINATOR as u128 || !may_be_filled(at) {
        return refused(last);
    }
    let leaf = Item::Leaf {
        denom: value as u32,
        last,
    };
    open(last, leaf, Place::WeightCut(at, 0), after_filled(at))
}

fn take_weight_cut(shape: Shape, at: TreeAt, before: u128, value: u128, last: bool) -> ScanMove
    ensures { result ≡ taken_by shape (WeightCut at before) value last }
{
    if value <= before || value >= SHORT_LIMIT {
        return refused(last);
    }
    more(last, Place::WeightAmount(at, value))
}

fn take_weight(shape: Shape, at: TreeAt, number: u128, value: u128, last: bool) -> ScanMove
    ensures { result ≡ taken_by shape (WeightAmount at number) value last }
{
    if value < 1 || value >= SHORT_LIMIT {
        return refused(last);
    }
    let pair = Item::LeafPair {
        c: number,
        w: value,
        last,
    };
    open(last, pair, Place::WeightCut(at, number), after_filled(at))
}

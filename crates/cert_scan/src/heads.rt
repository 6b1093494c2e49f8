//! The first word of a line, which tells its kind.
ghost use Rattle.std.specs.Prelude.{◌≡◌, ◌+◌, ◌≤◌, ◌⊎◌, length, take};
ghost use Rattle.cert_scan.specs.Runs.{GoesOn};
ghost use Rattle.cert_scan.specs.Moves.{
  head_at,
  count_line_of,
  keyword_of,
  first_place_of,
  duals_line_of,
  block_line_of,
  turned_by,
};

use crate::items::Version;
use crate::places::Place;
use crate::stages::{Commodity, DualAt, MarkAt, Stage, TreeAt};

// What a line is, or for a marked cut what stands behind its part.
#[derive(Clone, Copy)]
pub(crate) enum Head {
    VersionLine,
    SizeLine,
    CostLine,
    BoundLine,
    HubsLine,
    RouteLine(Commodity),
    CutsLine,
    CutLine(u32, u32),
    MarkWord(MarkAt),
    DualLine(DualAt),
    DualsLine(DualAt),
    ProvedLine(DualAt),
    ProofLine(DualAt),
    NodesLine,
    BranchLine(TreeAt),
    LeafLine(TreeAt),
    EmptyLine(TreeAt),
    BlockLine(TreeAt),
    CountLine(TreeAt),
    EndLine,
}

// What the line is to be that begins with this byte, if one may.
pub(crate) fn head_of(version: Version, stage: Stage, byte: u8) -> Option<Head>
    ensures { result ≡ head_at version stage byte }
{
    match stage {
        Stage::Version => Some(Head::VersionLine),
        Stage::Size => Some(Head::SizeLine),
        Stage::Cost => Some(Head::CostLine),
        Stage::Bound => Some(Head::BoundLine),
        Stage::Hubs => Some(Head::HubsLine),
        Stage::Route(commodity) => Some(Head::RouteLine(commodity)),
        Stage::Cuts => Some(Head::CutsLine),
        Stage::Cut(all, before) => Some(Head::CutLine(all, before)),
        Stage::Dual(at) => Some(Head::DualLine(at)),
        Stage::ProvedDual(at) => Some(Head::ProvedLine(at)),
        Stage::Proof(at) => Some(Head::ProofLine(at)),
        Stage::Nodes => Some(Head::NodesLine),
        Stage::Tree(at) => tree_head(version, at, byte),
        Stage::End => Some(Head::EndLine),
        Stage::Nothing => None,
    }
}

fn tree_head(version: Version, at: TreeAt, byte: u8) -> Option<Head>
    ensures { result ≡ head_at version (Stage.Tree at) byte }
{
    if byte == b'b' {
        Some(Head::BranchLine(at))
    } else if byte == b'l' {
        Some(Head::LeafLine(at))
    } else if byte == b'e' {
        Some(Head::EmptyLine(at))
    } else if byte == b'c' {
        count_line(version, at)
    } else {
        None
    }
}

// The first version has no counts.
fn count_line(version: Version, at: TreeAt) -> Option<Head>
    ensures { result ≡ count_line_of version at }
{
    match version {
        Version::First => None,
        Version::Second | Version::Third => Some(Head::CountLine(at)),
    }
}

// The first word of a line, and where its first number stands, if it has one.
pub(crate) fn form(head: Head) -> (&'static [u8], Option<Place>)
    ensures word { result.0.now ≡ keyword_of head }
    ensures place { result.1 ≡ first_place_of head }
{
    match head {
        Head::VersionLine => (b"HUBCERT", Some(Place::VersionNumber)),
        Head::SizeLine => (b"size", Some(Place::NodeCount)),
        Head::CostLine => (b"cost", Some(Place::CostAmount)),
        Head::BoundLine => (b"bound", Some(Place::BoundAmount)),
        Head::HubsLine => (b"hubs", Some(Place::HubNode(0))),
        Head::RouteLine(commodity) => (b"route", Some(Place::RouteFrom(commodity))),
        Head::CutsLine => (b"cuts", Some(Place::CutCount)),
        Head::CutLine(all, before) => (b"cut", Some(Place::CutNumber(all, before))),
        Head::MarkWord(at) => (b"core", Some(Place::MarkHub(at, 0))),
        Head::DualLine(at) => (b"dual", Some(Place::DualFrom(at))),
        Head::DualsLine(at) => (b"duals", Some(Place::RunFrom(at))),
        Head::ProvedLine(at) => (b"dual", Some(Place::ProvedFrom(at))),
        Head::ProofLine(at) => (b"proof", Some(Place::ProofTurns(at))),
        Head::NodesLine => (b"nodes", Some(Place::LineCount)),
        Head::BranchLine(at) => (b"branch", Some(Place::BranchNode(at))),
        Head::LeafLine(at) => (b"leaf", Some(Place::Denominator(at))),
        Head::EmptyLine(_) => (b"empty", None),
        Head::BlockLine(at) => (b"block", Some(Place::BlockFrom(at))),
        Head::CountLine(_) => (b"count", None),
        Head::EndLine => (b"end", None),
    }
}

// How many of the bytes go on with the line's first word, of which so many letters have come.
pub(crate) fn letters_ahead(head: Head, matched: usize, bytes: &[u8]) -> usize
    ensures within { result ≤ length bytes.now }
    ensures room { (result ≡ 0) ⊎ (matched + result ≤ length (keyword_of head)) }
    ensures letters { GoesOn (keyword_of head) matched (take result bytes.now) }
{
    let (word, _) = form(head);
    if matched >= word.len() {
        return 0;
    }
    let limit = bytes.len().min(word.len() - matched);
    for i in 0..limit {
        if bytes[i] != word[matched + i] {
            return i;
        }
    }
    limit
}

// The line that this one turns out to be, where its first word goes on with the byte behind so many letters.
pub(crate) fn turned(version: Version, head: Head, matched: usize, byte: u8) -> Option<Head>
    ensures { result ≡ turned_by version head matched byte }
{
    if byte == b's' && matched == 4 {
        return duals_line(version, head);
    }
    if byte == b'l' && matched == 1 {
        return block_line(version, head);
    }
    None
}

fn duals_line(version: Version, head: Head) -> Option<Head>
    ensures { result ≡ duals_line_of version head }
{
    match (version, head) {
        (Version::Second | Version::Third, Head::DualLine(at)) => Some(Head::DualsLine(at)),
        _ => None,
    }
}

fn block_line(version: Version, head: Head) -> Option<Head>
    ensures { result ≡ block_line_of version head }
{
    match (version, head) {
        (Version::Second | Version::Third, Head::BranchLine(at)) => Some(Head::BlockLine(at)),
        _ => None,
    }
}

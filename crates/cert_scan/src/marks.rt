//! The effect of each number of a mark or a proof on its line.
//!
//! These have their own functions, so that the numbers of other lines are not slowed down.
ghost use Rattle.std.specs.Prelude.{◌≡◌};
ghost use Rattle.cert_scan.specs.Moves.{part_by, taken_by, is_later_way};
ghost use Rattle.cert_scan.specs.declared.places.Place.TheVariants.{
  MarkHub,
  ProofTurns,
  ProofScale,
  WayFrom,
  WayTo,
  WayTaken,
};

use crate::bytes::{Position, ScanMove};
use crate::heads::Head;
use crate::items::{Item, Version};
use crate::places::{Place, more, open, refused, whole};
use crate::stages::{DualAt, MarkAt, Shape, WaysAt, after_proof, first_dual, first_proved};

// Of the turns, the scale, and how often a way is taken.
pub(crate) const MOST_TURNS: u128 = 1000;

pub(crate) const MOST_SCALE: u128 = 1_000_000_000;

pub(crate) const MOST_TAKEN: u128 = 1_000_000_000_000;

// The line of a cut ends behind its part; in the third version a mark may stand behind it.
#[inline(never)]
pub(crate) fn end_part(version: Version, at: MarkAt, last: bool) -> ScanMove
    ensures { result ≡ part_by version at last }
{
    let cut = Item::Cut {
        x: at.number,
        part: at.part,
        last,
    };
    match (version, last) {
        (Version::Third, false) => ScanMove {
            position: Position::Keyword(Head::MarkWord(at), 0),
            item: Some(cut),
        },
        _ => whole(
            last,
            Some(cut),
            first_dual(at.all, at.number.saturating_sub(1)),
        ),
    }
}

#[inline(never)]
pub(crate) fn take_mark_hub(
    shape: Shape,
    at: MarkAt,
    before: u32,
    value: u128,
    last: bool,
) -> ScanMove
    ensures { result ≡ taken_by shape (MarkHub at before) value last }
{
    if value <= before as u128 || value > shape.n as u128 {
        return refused(last);
    }
    let number = value as u32;
    let hub = Item::CoreHub {
        k: number - 1,
        last,
    };
    open(
        last,
        hub,
        Place::MarkHub(at, number),
        first_proved(at.all, at.number.saturating_sub(1)),
    )
}

#[inline(never)]
pub(crate) fn take_turns(shape: Shape, at: DualAt, value: u128, last: bool) -> ScanMove
    ensures { result ≡ taken_by shape (ProofTurns at) value last }
{
    if value > MOST_TURNS {
        return refused(last);
    }
    more(last, Place::ProofScale(at, value as u32))
}

#[inline(never)]
pub(crate) fn take_scale(shape: Shape, at: DualAt, turns: u32, value: u128, last: bool) -> ScanMove
    ensures { result ≡ taken_by shape (ProofScale at turns) value last }
{
    if value < 1 || value > MOST_SCALE {
        return refused(last);
    }
    let proof = Item::Proof {
        t: turns,
        g: value as u32,
        last,
    };
    let none = WaysAt {
        dual: at,
        from: 0,
        to: 0,
    };
    open(last, proof, Place::WayFrom(none), after_proof(shape.n, at))
}

#[inline(never)]
pub(crate) fn take_way_from(shape: Shape, at: WaysAt, value: u128, last: bool) -> ScanMove
    ensures { result ≡ taken_by shape (WayFrom at) value last }
{
    if value < 1 || value > shape.n as u128 {
        return refused(last);
    }
    more(last, Place::WayTo(at, value as u32))
}

// Whether the nodes stand behind those of the way before.
#[inline(always)]
pub(crate) fn is_later(at: WaysAt, from: u32, to: u128) -> bool
    ensures { result ≡ is_later_way at from to }
{
    at.from < from || (at.from == from && (at.to as u128) < to)
}

#[inline(never)]
pub(crate) fn take_way_to(shape: Shape, at: WaysAt, from: u32, value: u128, last: bool) -> ScanMove
    ensures { result ≡ taken_by shape (WayTo at from) value last }
{
    if value < from as u128 || value > shape.n as u128 || !is_later(at, from, value) {
        return refused(last);
    }
    let way = WaysAt {
        dual: at.dual,
        from,
        to: value as u32,
    };
    more(last, Place::WayTaken(way))
}

#[inline(never)]
pub(crate) fn take_taken(shape: Shape, at: WaysAt, value: u128, last: bool) -> ScanMove
    ensures { result ≡ taken_by shape (WayTaken at) value last }
{
    if value < 1 || value > MOST_TAKEN {
        return refused(last);
    }
    let way = Item::ProofPair {
        k: at.from.saturating_sub(1),
        m: at.to.saturating_sub(1),
        y: value as u64,
        last,
    };
    open(last, way, Place::WayFrom(at), after_proof(shape.n, at.dual))
}

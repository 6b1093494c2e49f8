//! The effect of one byte on a line.
ghost use Rattle.std.specs.Prelude.{◌≡◌, ◌-◌, ◌≤◌, true, None};
ghost use Rattle.cert_scan.specs.declared.bytes.Position.TheVariants.{Keyword};
ghost use Rattle.cert_scan.specs.Moves.{
  move,
  refusal,
  first_place_of,
  with_digit_of,
  spoiled_by,
  begun_by,
  bare_filled_by,
  bare_by,
  first_number_by,
  behind_keyword_by,
  keyword_by,
  behind_number_by,
  number_by,
  moved_by,
};

use crate::heads::{Head, form, head_of, turned};
use crate::items::{Item, Version};
use crate::places::{Place, refused, take};
use crate::stages::{Shape, Stage, TreeAt, after_filled, may_be_filled};

// Where in a line a scan stands.
#[derive(Clone, Copy)]
pub(crate) enum Position {
    // No byte of the line has come.
    Start(Stage),
    // So many bytes of its keyword have come.
    Keyword(Head, usize),
    // The digits of the number at this place that have come spell this; none have where there is no value.
    Number(Place, Option<u128>),
    // The line is not as wanted, and has not ended yet.
    Spoiled,
    // A whole line was not as wanted.
    Failed,
}

// Where a byte leads to, and what it gives.
#[derive(Clone, Copy)]
pub(crate) struct ScanMove {
    pub position: Position,
    pub item: Option<Item>,
}

// A number that this is not below takes no further digit: it has 33 already.
const NEARLY_LONGEST: u128 = 100_000_000_000_000_000_000_000_000_000_000;

// What a byte of a text of this shape makes of a position.
pub(crate) fn after_byte(shape: Shape, position: Position, byte: u8) -> ScanMove
    ensures { result ≡ moved_by shape position byte }
{
    match position {
        Position::Start(stage) => begin(shape.version, stage, byte),
        Position::Keyword(head, matched) => in_keyword(shape.version, head, matched, byte),
        Position::Number(place, value) => in_number(shape, place, value, byte),
        Position::Spoiled => spoil(byte),
        Position::Failed => fail(),
    }
}

fn fail() -> ScanMove
    ensures { result ≡ refusal true }
{
    refused(true)
}

// A byte that is not as wanted.
fn spoil(byte: u8) -> ScanMove
    ensures { result ≡ spoiled_by byte }
{
    refused(byte == b'\n')
}

fn begin(version: Version, stage: Stage, byte: u8) -> ScanMove
    ensures { result ≡ begun_by version stage byte }
{
    if let Stage::Nothing = stage {
        return fail();
    }
    match head_of(version, stage, byte) {
        Some(head) => in_keyword(version, head, 0, byte),
        None => spoil(byte),
    }
}

fn in_keyword(version: Version, head: Head, matched: usize, byte: u8) -> ScanMove
    ensures { result ≡ keyword_by version head matched byte }
{
    let (word, place) = form(head);
    if matched < word.len() && byte == word[matched] {
        return goes_on(head, matched + 1);
    }
    if let Some(other) = turned(version, head, matched, byte) {
        return goes_on(other, matched + 1);
    }
    if matched < word.len() {
        return spoil(byte);
    }
    behind_keyword(head, place, byte)
}

fn goes_on(head: Head, matched: usize) -> ScanMove
    ensures { result ≡ move (Keyword head matched) None }
{
    ScanMove {
        position: Position::Keyword(head, matched),
        item: None,
    }
}

fn behind_keyword(head: Head, place: Option<Place>, byte: u8) -> ScanMove
    requires { place ≡ first_place_of head }
    ensures { result ≡ behind_keyword_by head byte }
{
    if byte == b' ' {
        return first_number(place);
    }
    if byte == b'\n' {
        return end_bare(head);
    }
    refused(false)
}

fn first_number(place: Option<Place>) -> ScanMove
    ensures { result ≡ first_number_by place }
{
    let Some(place) = place else {
        return refused(false);
    };
    ScanMove {
        position: Position::Number(place, None),
        item: None,
    }
}

// The end of a line that is only a keyword.
fn end_bare(head: Head) -> ScanMove
    ensures { result ≡ bare_by head }
{
    match head {
        Head::EmptyLine(at) => end_filled(at, Item::Empty),
        Head::CountLine(at) => end_filled(at, Item::Count),
        Head::EndLine => ScanMove {
            position: Position::Start(Stage::Nothing),
            item: Some(Item::End),
        },
        _ => fail(),
    }
}

// The end of a line that fills a place and has no number.
fn end_filled(at: TreeAt, item: Item) -> ScanMove
    ensures { result ≡ bare_filled_by at item }
{
    if !may_be_filled(at) {
        return fail();
    }
    ScanMove {
        position: Position::Start(after_filled(at)),
        item: Some(item),
    }
}

fn in_number(shape: Shape, place: Place, value: Option<u128>, byte: u8) -> ScanMove
    ensures { result ≡ number_by shape place value byte }
{
    if byte < b'0' || byte > b'9' {
        return behind_number(shape, place, value, byte);
    }
    let Some(sum) = with_digit(value, byte) else {
        return refused(false);
    };
    ScanMove {
        position: Position::Number(place, Some(sum)),
        item: None,
    }
}

// The number that is spelled with this digit behind, if a digit may stand there.
pub(crate) fn with_digit(value: Option<u128>, byte: u8) -> Option<u128>
    requires { 48 ≤ byte }
    ensures { result ≡ with_digit_of value (byte - 48) }
{
    let digit = (byte - b'0') as u128;
    let Some(front) = value else {
        return Some(digit);
    };
    if front < 1 || front >= NEARLY_LONGEST {
        return None;
    }
    Some(front * 10 + digit)
}

fn behind_number(shape: Shape, place: Place, value: Option<u128>, byte: u8) -> ScanMove
    ensures { result ≡ behind_number_by shape place value byte }
{
    let Some(number) = value else {
        return spoil(byte);
    };
    if byte == b'\n' {
        return take(shape, place, number, true);
    }
    if byte == b' ' {
        return take(shape, place, number, false);
    }
    refused(false)
}

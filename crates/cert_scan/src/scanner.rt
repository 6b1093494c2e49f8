//! The scan of a text's bytes.
ghost use Rattle.std.specs.Prelude.{◌≡◌, ℕ, ◌-◌, ◌++◌, ◌<◌, ◌≤◌, List, [], ◌∷◌, length, take, Some, None, false, IfSome, option_to_list};
ghost use Rattle.cert_spec.specs.Stated.{Stated};
ghost use Rattle.cert_spec.specs.Text.{Spells};
ghost use Rattle.cert_scan.specs.Scans.{
  stepped,
  scanned,
  given_all,
  given_by,
  sifted,
  put,
  with_item,
  moved,
  line_by,
  fault_at,
  fault_by,
};
ghost use Rattle.cert_scan.specs.Repeats.{repeats_by};
ghost use Rattle.cert_scan.specs.Parts.{items_of};
ghost use Rattle.cert_scan.specs.Given.{IsGiven};
ghost use Rattle.cert_scan.specs.Scanned.{HasScanned, IsLost, AreCountable, Tells, IsLineAtHand};
ghost use Rattle.cert_scan.specs.Pieces.{AreOnTime};
ghost use Rattle.cert_scan.specs.Moves.{way_behind};
ghost use Rattle.cert_scan.specs.Ahead.{IsPairAhead, IsWayAhead};
ghost use Rattle.cert_scan.specs.Runs.{Takes, Runs, HasNoLineEnd};
ghost use Rattle.cert_scan.specs.declared.items.Item.{Item as ItemOf};
ghost use Rattle.cert_scan.specs.declared.items.Item.TheVariants.{DualPair, ProofPair};
ghost use Rattle.cert_scan.specs.declared.bytes.Position.TheVariants.{Number};
ghost use Rattle.cert_scan.specs.declared.places.Place.TheVariants.{ValueNode, WayFrom};
ghost use Rattle.cert_scan.specs.declared.stages.Subject.{Subject as SubjectOf};
ghost use Rattle.cert_scan.specs.declared.stages.WaysAt.{WaysAt as WaysAtOf};

use crate::bytes::{Position, ScanMove, after_byte};
use crate::digits::{SHORT, more_digits, number_at};
use crate::heads::{form, head_of, letters_ahead};
use crate::items::{Fault, Item, Version};
use crate::marks::take_taken;
use crate::pairs::{Pair, pair_ahead};
use crate::places::{Place, take, take_value};
use crate::proof_ways::{Way, way_ahead};
use crate::repeats::DualSoFar;
use crate::stages::{Shape, Stage, WaysAt};
use memchr::memchr;

/// The scan of a text so far. It allocates nothing, and holds at most the pairs of one dual.
#[derive(Drop)]
pub struct Scan {
    // The version and the number of nodes, once the text has told them.
    pub(crate) shape: Shape,
    line: u64,
    pub(crate) position: Position,
    // In the first version, as at the start.
    pub(crate) so_far: DualSoFar,
}

impl Scan {
    /// The scan before the first byte.
    pub fn new() -> Scan
        ensures { HasScanned [] [] result }
    {
        Scan {
            shape: Shape {
                version: Version::First,
                n: 0,
            },
            line: 1,
            position: Position::Start(Stage::Version),
            so_far: DualSoFar::new(),
        }
    }

    /// Takes the next byte, and gives the item that it completes, if there is one.
    ///
    /// The items so far are those of whole lines, and the first ones of the present line. After a line that does not
    /// fit the grammar no item comes.
    pub fn step(&mut self, byte: u8) -> Option<Item>
        ensures given { result ≡ given_by self.old byte }
        ensures after { self.new ≡ stepped self.old byte }
        ensures scanned { (bytes : List ℕ) (given : List ItemOf) → HasScanned bytes given self.old
            → HasScanned (bytes ++ byte ∷ []) (given ++ option_to_list result) self.new }
        ensures in_order { (bytes : List ℕ) (given : List ItemOf) → HasScanned bytes given self.old
            → IsGiven (given ++ option_to_list result) }
        ensures on_time { (bytes : List ℕ) (given : List ItemOf) → HasScanned bytes given self.old
            → AreOnTime (bytes ++ byte ∷ []) (given ++ option_to_list result) }
        ensures lost { IsLost self.old → (result ≡ None) × IsLost self.new }
    {
        self.advance(byte)
    }

    /// Takes bytes up to the one that completes an item, or all where none does. It returns the number of bytes taken,
    /// and the item.
    ///
    /// It equals `step` on each of these bytes: the last one gives the item, and none before it does.
    // In its callers, where what it gives need not be copied.
    #[inline(always)]
    pub fn run(&mut self, bytes: &[u8]) -> (usize, Option<Item>)
        ensures runs { Runs self.old bytes.now result.0 result.1 self.new }
        ensures scanned { (front : List ℕ) (given : List ItemOf) → HasScanned front given self.old
            → HasScanned (front ++ take result.0 bytes.now) (given ++ option_to_list result.1) self.new }
        ensures in_order { (front : List ℕ) (given : List ItemOf) → HasScanned front given self.old
            → IsGiven (given ++ option_to_list result.1) }
        ensures on_time { (front : List ℕ) (given : List ItemOf) → HasScanned front given self.old
            → AreOnTime (front ++ take result.0 bytes.now) (given ++ option_to_list result.1) }
        ensures not_sooner { (front : List ℕ) (given : List ItemOf) → HasScanned front given self.old
            → AreOnTime (front ++ take (result.0 - 1) bytes.now) given }
    {
        self.take_run(bytes)
    }

    #[inline(always)]
    fn take_run(&mut self, bytes: &[u8]) -> (usize, Option<Item>)
        ensures { Runs self.old bytes.now result.0 result.1 self.new }
    {
        if let Some(pair) = self.pair_ahead(bytes) {
            if pair.last {
                return self.end_dual(pair, bytes);
            }
            let item = self.list_pair(pair);
            return (pair.behind, Some(item));
        }
        let Some(way) = self.way_ahead(bytes) else {
            return self.begin_line(bytes);
        };
        if way.last {
            return self.end_proof(bytes);
        }
        let item = self.list_way(way);
        (way.behind, Some(item))
    }

    // The node and the value that a dual lists next, where they stand there whole and as wanted.
    #[inline(always)]
    fn pair_ahead(&self, bytes: &[u8]) -> Option<Pair>
        ensures { IfSome result (λ pair. (subject : SubjectOf) × (before : ℕ)
            × (self.now.position ≡ Number (ValueNode subject before) None) × IsPairAhead self.now.shape.n before bytes.now pair) }
    {
        match self.position {
            Position::Number(Place::ValueNode(_, before), None) => pair_ahead(
                self.shape.n,
                before,
                bytes,
            ),
            _ => None,
        }
    }

    // Takes a pair behind which the line goes on.
    #[inline(always)]
    fn list_pair(&mut self, pair: Pair) -> Item
        ensures given { result ≡ DualPair (pair.number - 1) pair.value false }
        ensures after { (subject : SubjectOf) (before : ℕ) → self.old.position ≡ Number (ValueNode subject before) None
            → self.new ≡ with_item (put self.old (Number (ValueNode subject pair.number) None)) result }
    {
        // The place is moved first: no other write lies between it and the test of where the scan stands.
        if let Position::Number(Place::ValueNode(_, before), None) = &mut self.position {
            *before = pair.number;
        }
        let k = pair.number.saturating_sub(1);
        let u = pair.value as u128;
        match self.shape.version {
            Version::First => {}
            Version::Second | Version::Third => self.so_far.list(k, u),
        }
        Item::DualPair { k, u, last: false }
    }

    // Takes a pair behind which the line ends. Apart, as what follows: the way of any other pair is to stay short.
    #[inline(never)]
    fn end_dual(&mut self, pair: Pair, bytes: &[u8]) -> (usize, Option<Item>)
        requires { (subject : SubjectOf) × (before : ℕ)
            × (self.old.position ≡ Number (ValueNode subject before) None) × IsPairAhead self.old.shape.n before bytes.now pair }
        ensures { Runs self.old bytes.now result.0 result.1 self.new }
    {
        let Position::Number(place, _) = self.position else {
            return self.advance_all(bytes);
        };
        let Place::ValueNode(of, _) = place else {
            return self.advance_all(bytes);
        };
        let next = take_value(self.shape, of, pair.number, pair.value as u128, pair.last);
        let item = self.go(next);
        if item.is_none() {
            // The dual repeats the one before it, so that nothing comes any more.
            return (bytes.len(), None);
        }
        (pair.behind, item)
    }

    // The way that a proof lists next, where it stands there whole and as wanted.
    #[inline(always)]
    fn way_ahead(&self, bytes: &[u8]) -> Option<Way>
        ensures { IfSome result (λ way. (at : WaysAtOf) × (self.now.position ≡ Number (WayFrom at) None)
            × IsWayAhead self.now.shape.n at bytes.now way) }
    {
        match self.position {
            Position::Number(Place::WayFrom(at), None) => way_ahead(self.shape.n, at, bytes),
            _ => None,
        }
    }

    // Takes a way behind which the line goes on.
    #[inline(always)]
    fn list_way(&mut self, way: Way) -> Item
        ensures given { result ≡ ProofPair (way.from - 1) (way.to - 1) way.taken false }
        ensures after { (at : WaysAtOf) → self.old.position ≡ Number (WayFrom at) None
            → self.new ≡ put self.old (Number (WayFrom (way_behind at.dual way.from way.to)) None) }
    {
        if let Position::Number(Place::WayFrom(at), None) = &mut self.position {
            at.from = way.from;
            at.to = way.to;
        }
        Item::ProofPair {
            k: way.from.saturating_sub(1),
            m: way.to.saturating_sub(1),
            y: way.taken,
            last: false,
        }
    }

    // Takes a way behind which the line ends. It is read once more, so that any other way need not be handed on.
    #[inline(never)]
    fn end_proof(&mut self, bytes: &[u8]) -> (usize, Option<Item>)
        ensures { Runs self.old bytes.now result.0 result.1 self.new }
    {
        let Some(way) = self.way_ahead(bytes) else {
            return self.advance_all(bytes);
        };
        let Position::Number(place, _) = self.position else {
            return self.advance_all(bytes);
        };
        let Place::WayFrom(before) = place else {
            return self.advance_all(bytes);
        };
        let at = WaysAt {
            dual: before.dual,
            from: way.from,
            to: way.to,
        };
        let next = take_taken(self.shape, at, way.taken as u128, way.last);
        let item = self.go(next);
        (way.behind, item)
    }

    #[inline(never)]
    pub(crate) fn advance_all(&mut self, bytes: &[u8]) -> (usize, Option<Item>)
        ensures { Runs self.old bytes.now result.0 result.1 self.new }
    {
        let mut at = 0;
        while at < bytes.len() {
            let (taken, item) = self.take_next(&bytes[at..]);
            at += taken;
            if item.is_some() {
                return (at, item);
            }
        }
        (at, None)
    }

    // Takes some bytes, of which none but the last gives an item.
    fn take_next(&mut self, bytes: &[u8]) -> (usize, Option<Item>)
        requires { 0 < length bytes.now }
        ensures { Takes self.old bytes.now result.0 result.1 self.new }
    {
        if let Some(taken) = self.take_word(bytes) {
            return (taken, None);
        }
        if let Some(taken) = self.take_number(bytes) {
            return taken;
        }
        self.take_bytes(bytes)
    }

    // Takes the first word of a line that begins, and the space behind it, where they stand there whole and as wanted.
    fn take_word(&mut self, bytes: &[u8]) -> Option<usize>
        requires { 0 < length bytes.now }
        ensures takes { IfSome result (λ taken. Takes self.old bytes.now taken None self.new) }
        ensures same { result ≡ None → self.new ≡ self.old }
    {
        let Position::Start(stage) = self.position else {
            return None;
        };
        let head = head_of(self.shape.version, stage, bytes[0])?;
        let (word, first) = form(head);
        let place = first?;
        let count = letters_ahead(head, 0, bytes);
        if count < word.len() || count >= bytes.len() || bytes[count] != b' ' {
            return None;
        }
        self.position = Position::Number(place, None);
        Some(count + 1)
    }

    // Takes a number that begins, and the byte behind it, where they stand there whole and the number is short.
    fn take_number(&mut self, bytes: &[u8]) -> Option<(usize, Option<Item>)>
        ensures takes { IfSome result (λ taken. Takes self.old bytes.now taken.0 taken.1 self.new) }
        ensures same { result ≡ None → self.new ≡ self.old }
    {
        let Position::Number(place, value) = self.position else {
            return None;
        };
        if value.is_some() || bytes.len() <= SHORT {
            return None;
        }
        let number = number_at(bytes, 0)?;
        let next = take(self.shape, place, number.value as u128, number.last);
        let item = self.go(next);
        Some((number.behind, item))
    }

    // Takes bytes that give nothing, and one more where one is left.
    fn take_bytes(&mut self, bytes: &[u8]) -> (usize, Option<Item>)
        requires { 0 < length bytes.now }
        ensures { Takes self.old bytes.now result.0 result.1 self.new }
    {
        let count = self.take_quietly(bytes);
        if count == bytes.len() {
            return (count, None);
        }
        let item = self.advance(bytes[count]);
        (count + 1, item)
    }

    // Takes at once bytes of which none can give an item, and returns how many. These are letters that go on with the
    // line's first word, or digits that go on with the current number. In a malformed line they are the rest of it.
    // After such a line they are all bytes.
    fn take_quietly(&mut self, bytes: &[u8]) -> usize
        ensures within { result ≤ length bytes.now }
        ensures after { self.new ≡ scanned self.old (take result bytes.now) }
        ensures nothing { given_all self.old (take result bytes.now) ≡ [] }
    {
        match self.position {
            Position::Number(place, value) => {
                let (count, more) = more_digits(value, bytes);
                self.position = Position::Number(place, more);
                count
            }
            Position::Keyword(head, matched) => {
                let count = letters_ahead(head, matched, bytes);
                self.position = Position::Keyword(head, matched + count);
                count
            }
            Position::Spoiled => line_rest(bytes),
            Position::Failed => bytes.len(),
            _ => 0,
        }
    }

    /// The number of the line of the next byte, counted from 1. After a line that does not fit the grammar, the number
    /// of that line.
    pub fn line(&self) -> u64
        ensures value { result ≡ self.now.line }
        ensures at_hand { (bytes : List ℕ) (given : List ItemOf) → HasScanned bytes given self.now → AreCountable bytes
            → IsLineAtHand bytes result }
    {
        self.line
    }

    /// The fault of the bytes so far, or `None` where they are the whole text of a certificate.
    pub fn finish(&self) -> Option<Fault>
        ensures value { result ≡ fault_by self.now }
        ensures tells { (bytes : List ℕ) (given : List ItemOf) → HasScanned bytes given self.now → AreCountable bytes
            → Tells bytes result }
        ensures items { (bytes : List ℕ) (given : List ItemOf) (k : Stated) → HasScanned bytes given self.now
            → Spells bytes k → given ≡ items_of k }
    {
        fault_of(self.line, self.position)
    }

    fn advance(&mut self, byte: u8) -> Option<Item>
        ensures given { result ≡ given_by self.old byte }
        ensures after { self.new ≡ stepped self.old byte }
    {
        self.go(after_byte(self.shape, self.position, byte))
    }

    // In its callers, so that the position of a move is written once.
    #[inline(always)]
    fn go(&mut self, next: ScanMove) -> Option<Item>
        ensures given { result ≡ (sifted self.old next).item }
        ensures after { self.new ≡ moved self.old next }
    {
        if let Some(item) = next.item {
            if self.notes_repeat(item) {
                self.position = Position::Failed;
                return None;
            }
        }
        self.line = line_after(self.line, next.position);
        self.position = next.position;
        next.item
    }

    // Takes what an item tells of the text, and tells whether it ends a dual that repeats the one before it.
    fn notes_repeat(&mut self, item: Item) -> bool
        ensures told { result ≡ repeats_by self.old.shape.version self.old.so_far (Some item) }
        ensures noted { self.new ≡ with_item self.old item }
    {
        match item {
            Item::Version(version) => self.shape.version = version,
            Item::Size { n, .. } => self.shape.n = n,
            _ => match self.shape.version {
                Version::First => {}
                Version::Second | Version::Third => return self.so_far.note(item),
            },
        }
        false
    }
}

// How many bytes stand before the first line feed.
fn line_rest(bytes: &[u8]) -> usize
    ensures within { result ≤ length bytes.now }
    ensures none { HasNoLineEnd (take result bytes.now) }
{
    memchr(b'\n', bytes).unwrap_or(bytes.len())
}

fn fault_of(line: u64, position: Position) -> Option<Fault>
    ensures { result ≡ fault_at line position }
{
    match position {
        Position::Start(Stage::Nothing) => None,
        Position::Failed => Some(Fault::BadLine { line }),
        _ => Some(Fault::Ended { line }),
    }
}

fn line_after(line: u64, position: Position) -> u64
    ensures { result ≡ line_by line position }
{
    match position {
        Position::Start(_) => line.saturating_add(1),
        _ => line,
    }
}

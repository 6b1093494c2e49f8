//! The check of bytes that arrive piece by piece.

ghost use Rattle.std.specs.Prelude.{◌≡◌, ℕ, ◌≤◌, ◌<◌, ◌++◌, List, [], length, take, IfOk, IsOk, OnErr};
ghost use Rattle.cert_spec.specs.Verdicts.{Why, certificate_limit};
ghost use Rattle.cert_checker.specs.Shows.{verdict_of, Proves, ProvesMarks};
ghost use Rattle.cert_scan.specs.declared.items.Item.{Item as ItemOf};
ghost use Rattle.cert_spec.specs.Stated.{Stated, IsStatedInRange};
ghost use Rattle.cert_scan.specs.Parts.{items_of};
ghost use Rattle.cert_scan.specs.Scans.{given_all};
ghost use Rattle.cert_conditions.specs.Taken.{HasTaken};
ghost use Rattle.cert_checker.specs.Fed.{EndsAs, HasCome, HasFed, BeginsCut, EndsCutLine, HasTreeCount};

use crate::tested::MOST_CERTIFICATE_BYTES;
use crate::verdicts::Ending;
use cert_conditions::Checks;
use cert_scan::{Fault, Scan};
use hub_model::Instance;
use std::alloc::{AllocError, Global};

/// The check of a certificate's text for an instance, of which some bytes have arrived.
///
/// A piece with which there are more than 2^30 bytes is not read, and none after it.
#[derive(Drop)]
pub struct Stream<'a> {
    scan: Scan,
    checks: Checks<'a>,
    // How many bytes may still come.
    room: usize,
    is_too_long: bool,
}

impl<'a> Stream<'a> {
    /// The check before the first byte.
    pub fn new(alloc: Global, instance: &'a Instance) -> Result<Stream<'a>, AllocError>
        ensures begun { IfOk result (λ stream. HasFed [] stream) }
        ensures instance { IfOk result (λ stream. stream.checks.instance.now ≡ instance.now) }
    {
        Ok(Stream {
            scan: Scan::new(),
            checks: Checks::new(alloc, instance)?,
            room: MOST_CERTIFICATE_BYTES,
            is_too_long: false,
        })
    }

    /// Takes the next bytes. It allocates the sums of cuts alone. Where memory runs out, the check is given up.
    ///
    /// So it is given up only with a piece in which a line that begins a cut ends. It is not given up after the line with
    /// the number of lines of the tree, nor with a piece that is not read.
    pub fn feed(mut self, alloc: Global, piece: &[u8]) -> Result<Stream<'a>, AllocError>
        requires { (bytes : List ℕ) × HasFed bytes self }
        ensures fed { (bytes : List ℕ) → HasFed bytes self.entry → IfOk result (λ stream. HasFed (bytes ++ piece.now) stream) }
        ensures instance { IfOk result (λ stream. stream.checks.instance ≡ self.entry.checks.instance) }
        ensures refused { (bytes : List ℕ) → HasFed bytes self.entry → OnErr result (EndsCutLine bytes piece.now) }
        ensures counted { (bytes : List ℕ) → HasFed bytes self.entry → HasTreeCount bytes → IsOk result }
        ensures too_long { (bytes : List ℕ) → HasFed bytes self.entry → certificate_limit < length (bytes ++ piece.now)
            → IsOk result }
    {
        if self.is_too_long {
            return Ok(self);
        }
        if piece.len() > self.room {
            self.is_too_long = true;
            return Ok(self);
        }
        self.advance(alloc, piece)?;
        self.room -= piece.len();
        Ok(self)
    }

    fn advance(&mut self, alloc: Global, piece: &[u8]) -> Result<(), AllocError>
        requires { (bytes : List ℕ) × (given : List ItemOf) × HasCome bytes given self.old }
        ensures come { (bytes : List ℕ) (given : List ItemOf) → HasCome bytes given self.old
            → IfOk result (λ _. (later : List ItemOf) × HasCome (bytes ++ piece.now) later self.new) }
        ensures room { self.new.room ≡ self.old.room }
        ensures short { self.new.is_too_long ≡ self.old.is_too_long }
        ensures instance { self.new.checks.instance ≡ self.old.checks.instance }
        ensures refused { OnErr result (BeginsCut (given_all self.old.scan piece.now)) }
    {
        let mut at = 0;
        while at < piece.len() {
            at += self.take_next(alloc, &piece[at..])?;
        }
        Ok(())
    }

    // Takes bytes up to the one that gives an item, and the item, or all bytes where none does; tells how many.
    fn take_next(&mut self, alloc: Global, bytes: &[u8]) -> Result<usize, AllocError>
        requires some { 0 < length bytes.now }
        requires come { (front : List ℕ) × (given : List ItemOf) × HasCome front given self.old }
        ensures some { IfOk result (λ n. 0 < n) }
        ensures within { IfOk result (λ n. n ≤ length bytes.now) }
        ensures come { (front : List ℕ) (given : List ItemOf) → HasCome front given self.old
            → IfOk result (λ n. (later : List ItemOf) × HasCome (front ++ take n bytes.now) later self.new) }
        ensures room { self.new.room ≡ self.old.room }
        ensures short { self.new.is_too_long ≡ self.old.is_too_long }
        ensures instance { self.new.checks.instance ≡ self.old.checks.instance }
        ensures refused { OnErr result (BeginsCut (given_all self.old.scan bytes.now)) }
    {
        let (count, given) = self.scan.run(bytes);
        match given {
            None => Ok(count),
            Some(item) => {
                self.checks.take(alloc, item)?;
                Ok(count)
            }
        }
    }

    /// The result of the check of all bytes that were fed, however they were cut into pieces.
    pub fn finish(&self) -> Ending
        requires { (bytes : List ℕ) × HasFed bytes self.now }
        ensures why { (bytes : List ℕ) → HasFed bytes self.now → Why self.now.checks.instance.now bytes (verdict_of result) }
        ensures proves { (bytes : List ℕ) → HasFed bytes self.now
            → Proves self.now.checks.instance.now bytes (verdict_of result) }
        ensures marked { (bytes : List ℕ) → HasFed bytes self.now
            → ProvesMarks self.now.checks.instance.now bytes (verdict_of result) }
    {
        if self.is_too_long {
            return Ending::TooLong;
        }
        match self.scan.finish() {
            Some(Fault::BadLine { line }) => Ending::BadLine { line },
            Some(Fault::Ended { line }) => Ending::Ended { line },
            None => ending_of(&self.checks),
        }
    }
}

// How the check of a whole certificate ends.
fn ending_of(checks: &Checks<'_>) -> Ending
    requires { (k : Stated) × IsStatedInRange k × HasTaken (items_of k) checks.now }
    ensures { (k : Stated) → IsStatedInRange k → HasTaken (items_of k) checks.now → EndsAs checks.now.instance.now k result }
{
    if let Some((kind, line)) = checks.first_failure() {
        return Ending::No { kind, line };
    }
    let bound = checks.bound();
    let cost = checks.cost();
    if bound == cost {
        return Ending::Optimal { cost };
    }
    Ending::Bounds { bound, cost }
}

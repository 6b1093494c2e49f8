ghost use Rattle.std.specs.Prelude.{◌≡◌, ◌<◌, ◌≤◌, ◌++◌, ℕ, List, length, take, IfOk, IfErr};
ghost use Rattle.cert_spec.specs.Text.{Spells};
ghost use Rattle.cert_format.specs.Faults.{ToldFault, told_of};
ghost use Rattle.cert_format.specs.Readings.{HasRead};
ghost use Rattle.cert_format.specs.declared.reader.CertFault.TheVariants.{OutOfMemory};

use crate::Certificate;
use crate::gathering::Gathering;
use cert_scan::{Fault, Scan};
use std::alloc::{AllocError, Global};
use thiserror::Error;

/// Why bytes were not read as a certificate. Lines count from 1.
#[derive(Clone, Copy, Debug, PartialEq, Eq, Error)]
pub enum CertFault {
    /// A whole line that does not fit the grammar there, or anything after the last line.
    #[error("line {line} is not as wanted")]
    BadLine { line: u64 },
    /// The text ends before this line ends.
    #[error("the text ends before line {line} does")]
    Ended { line: u64 },
    #[error("out of memory")]
    OutOfMemory,
}

impl From<AllocError> for CertFault {
    ghost from_gives = { λ _ r. r ≡ OutOfMemory };

    fn from(_error: AllocError) -> CertFault {
        CertFault::OutOfMemory
    }
}

/// Reads the text of a certificate. The result is a certificate exactly where the bytes spell one, unless memory runs
/// out.
///
/// Nothing is allocated for what the text only announces.
pub fn read_cert(alloc: Global, bytes: &[u8]) -> Result<Certificate, CertFault>
    ensures spells { IfOk result (Spells bytes.now) }
    ensures fault { IfErr result (ToldFault bytes.now) }
{
    let mut scan = Scan::new();
    let mut gathering = Gathering::new(alloc);
    let mut at = 0;
    while at < bytes.len() {
        at += take_next(alloc, &bytes[at..], &mut scan, &mut gathering)?;
    }
    match scan.finish() {
        Some(fault) => Err(told(fault)),
        None => Ok(gathering.finish()),
    }
}

// Takes bytes up to the one that tells an item, and the item, or all bytes where none does; tells how many.
fn take_next(
    alloc: Global,
    bytes: &[u8],
    scan: &mut Scan,
    gathering: &mut Gathering,
) -> Result<usize, AllocError>
    requires some { 0 < length bytes.now }
    requires read { (front : List ℕ) × HasRead front scan.old gathering.old }
    ensures some { IfOk result (λ count. 0 < count) }
    ensures within { IfOk result (λ count. count ≤ length bytes.now) }
    ensures read { (front : List ℕ) → HasRead front scan.old gathering.old
        → IfOk result (λ count. HasRead (front ++ take count bytes.now) scan.new gathering.new) }
{
    let (count, told) = scan.run(bytes);
    match told {
        None => Ok(count),
        Some(item) => {
            gathering.take(alloc, item)?;
            Ok(count)
        }
    }
}

// The fault of a scan as one of the reader's.
fn told(fault: Fault) -> CertFault
    ensures { result ≡ told_of fault }
{
    match fault {
        Fault::BadLine { line } => CertFault::BadLine { line },
        Fault::Ended { line } => CertFault::Ended { line },
    }
}

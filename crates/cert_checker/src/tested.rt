//! A certificate that is read for an instance, and tested.

ghost use Rattle.std.specs.Prelude.{IfOk};
ghost use Rattle.std.specs.Option.{IfSome, IfNone};
ghost use Rattle.cert_spec.specs.Conditions.{FailsFirst};
ghost use Rattle.cert_conditions.specs.Kinds.{kind_of};
ghost use Rattle.cert_checker.specs.Readings.{Passes, tests, IsReadAs};

use crate::checks::{SIZE_LINE, check, is_of_size};
use crate::older::check_cuts;
use crate::verdicts::{Ending, Verdict};
use cert_conditions::Kind;
use cert_format::{CertFault, Certificate, read_cert};
use hub_model::Instance;
use std::alloc::{AllocError, Global};
use std::thread::Threads;

/// The text of a certificate may have at most this many bytes: 2^30.
pub const MOST_CERTIFICATE_BYTES: usize = 1_073_741_824;

/// The conditions that are tested of a certificate that is read.
#[derive(Clone, Copy, Debug, PartialEq, Eq)]
pub enum Tested {
    /// All of them.
    Whole,
    /// Those of its size and its cuts, as for `check_cuts`. All else may belong to another instance.
    Cuts,
    /// That of its size.
    Size,
}

/// Reads bytes as a certificate, and tests these conditions for the instance. It returns the certificate, or the ending
/// that refuses the bytes. It fails only where memory runs out.
pub fn read_tested<R: Threads + Sync>(
    rt: &R,
    alloc: Global,
    instance: &Instance,
    tested: Tested,
    bytes: &[u8],
) -> Result<Result<Certificate, Ending>, AllocError>
    ensures { IfOk result (IsReadAs instance.now tested bytes.now) }
{
    if bytes.len() > MOST_CERTIFICATE_BYTES {
        return Ok(Err(Ending::TooLong));
    }
    match read_cert(alloc, bytes) {
        Ok(certificate) => match failing(rt, alloc, instance, tested, &certificate)? {
            None => Ok(Ok(certificate)),
            Some((kind, line)) => Ok(Err(Ending::No { kind, line })),
        },
        Err(CertFault::BadLine { line }) => Ok(Err(Ending::BadLine { line })),
        Err(CertFault::Ended { line }) => Ok(Err(Ending::Ended { line })),
        Err(CertFault::OutOfMemory) => Err(AllocError),
    }
}

// The first of these conditions that fails, with its line.
fn failing<R: Threads + Sync>(
    rt: &R,
    alloc: Global,
    instance: &Instance,
    tested: Tested,
    certificate: &Certificate,
) -> Result<Option<(Kind, u64)>, AllocError>
    ensures fails { IfOk result (λ o. IfSome o (λ f. FailsFirst (tests tested instance.now certificate.now) (kind_of f.0) f.1)) }
    ensures holds { IfOk result (λ o. IfNone o (Passes tested instance.now certificate.now)) }
{
    match tested {
        Tested::Whole => match check(rt, alloc, instance, certificate)? {
            Verdict::No { kind, line } => Ok(Some((kind, line))),
            Verdict::Optimal | Verdict::Bounds => Ok(None),
        },
        Tested::Cuts => check_cuts(rt, alloc, instance, certificate),
        Tested::Size => {
            if is_of_size(instance, certificate) {
                return Ok(None);
            }
            Ok(Some((Kind::Size, SIZE_LINE)))
        }
    }
}

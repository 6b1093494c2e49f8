//! The check of a whole certificate against an instance; it knows nothing of the search.
//!
//! The conditions are those of `cert_conditions`. Its `Checks` takes a certificate's lines one after another and returns the
//! first condition that fails. This crate supplies the lines:
//!
//! - [`Stream`] scans bytes that arrive piece by piece, and [`check_held`] a file on a shelf.
//! - [`check`] goes over a certificate in memory (`walks`). It tests the duals of a cut in parallel before it takes their
//!   lines (`side_by_side`).
//!
//! A marked cut must be Pareto-optimal (Magnanti and Wong 1981) by its mark. If the verdict accepts the certificate, no
//! Benders cut of the instance that is tight at the hubs of a mark dominates the marked cut.
//!
//! An older certificate may be the warm start of a search. [`check_cuts`] tests its size and its cuts for the present
//! instance, and ignores its bound, plan, tree and marks. [`read_tested`] parses bytes as a certificate and tests all of
//! it, its size and its cuts, or its size alone. It returns the certificate, or the [`Ending`] that refuses the bytes.
//! Where the size alone is tested, the duals may belong to an instance with other fixed costs, numbers of hubs or
//! factors: a search by dual ascent trusts none of them.
#![tactic(auto)]

// What is answered.
mod endings;
mod verdicts;

// A certificate that is held.
mod checks;
mod side_by_side;
mod walks;

// Bytes.
mod held;
mod streams;
mod tested;

// An older certificate.
mod older;
mod runs;

pub use cert_conditions::Kind;
pub use checks::check;
pub use endings::NoEnding;
pub use held::check_held;
pub use older::check_cuts;
pub use streams::Stream;
pub use tested::{MOST_CERTIFICATE_BYTES, Tested, read_tested};
pub use verdicts::{Ending, Verdict};

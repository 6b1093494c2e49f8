//! The results of a check.

use cert_conditions::Kind;

/// What a certificate proves of its plan.
#[derive(Clone, Copy, Debug, PartialEq, Eq)]
pub enum Verdict {
    /// It is optimal.
    Optimal,
    /// It is a plan of its cost, and no plan costs less than the bound, which is below that.
    Bounds,
    /// Nothing. The first condition that fails is of this kind, at this line of the certificate's text, counted from 1.
    No { kind: Kind, line: u64 },
}

/// The result of a check of bytes. Costs are in 10^-12, and lines count from 1.
#[derive(Clone, Copy, Debug, PartialEq, Eq)]
pub enum Ending {
    /// They name a plan of this cost, and it is optimal.
    Optimal { cost: u128 },
    /// They name a plan of this cost, and no plan costs less than the bound, which is below that.
    Bounds { bound: u128, cost: u128 },
    /// They are a certificate. The first condition that fails is of this kind, at this line.
    No { kind: Kind, line: u64 },
    /// This line is wrong, or bytes follow the last line.
    BadLine { line: u64 },
    /// They end before this line ends.
    Ended { line: u64 },
    /// They are more than 2^30 bytes.
    TooLong,
}

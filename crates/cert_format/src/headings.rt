//! The first lines of a certificate's text.

use cert_scan::Version;

/// The contents of the first lines of a certificate's text: version, numbers of nodes and candidates, cost of the plan,
/// and lower bound. Cost and bound are in 10^-12.
#[derive(Clone, Copy)]
pub struct Heading {
    pub version: Version,
    pub size: u32,
    pub candidates: u32,
    pub cost: u128,
    pub bound: u128,
}

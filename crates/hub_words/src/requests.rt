//! What a command line requests.

use cert_scan::Version;
use hub_model::Terms;

/// The layouts of an instance file.
#[derive(Clone, Copy, Debug, PartialEq, Eq)]
pub enum Layout {
    CabMatrix,
    CabRows,
    AustraliaPost,
}

/// An instance as the arguments name it.
#[derive(Drop)]
pub struct Source<'a> {
    pub layout: Layout,
    /// The name of the instance file.
    pub file: &'a str,
    pub terms: Terms,
    /// The name of the costs file, if there is one.
    pub costs: Option<&'a str>,
}

/// The node limit and the number of workers of a search, and the version of its certificate.
#[derive(Clone, Copy, Debug, PartialEq, Eq)]
pub struct Search {
    /// The most nodes of the search, from 1 to 2^63, if they are limited.
    pub nodes: Option<u64>,
    /// The number of workers, from 1 to 64.
    pub workers: u32,
    pub version: Version,
}

/// The rules of a search.
#[derive(Clone, Copy, Debug, PartialEq, Eq)]
pub enum SearchRule {
    /// Depth first, node by node, the open child first.
    NodeByNode,
    /// As `NodeByNode`, with Pareto-optimal cuts, where a hub set has one.
    ByCoreCuts,
    /// By rounds of nodes that are evaluated side by side.
    ByRounds,
}

/// The method by which an instance is solved.
#[derive(Clone, Copy)]
pub enum How<'a> {
    /// Branch and bound by this rule (`solve`).
    Follow(SearchRule),
    /// Node by node, with a warm start from the older certificate in the file of this name (`resolve`).
    Again(&'a str),
    /// Branch and bound driven by a heuristic (`optimize`).
    Freely {
        /// How far the bound may be below the cost, in thousandths of a per cent of the cost: 0 to 100,000.
        gap: u32,
        /// The name of the file of an older certificate from which the search begins, if there is one.
        from: Option<&'a str>,
    },
}

/// The instance to solve, the method, and the limits of the search.
#[derive(Drop)]
pub struct Solving<'a> {
    pub source: Source<'a>,
    pub how: How<'a>,
    pub search: Search,
}

/// A made-up instance.
#[derive(Clone, Copy, Debug, PartialEq, Eq)]
pub struct Making {
    /// The seed, from 0 to 1,000,000.
    pub seed: u32,
    /// The number of nodes, from 1 to 200.
    pub size: u32,
}

/// The command that the arguments give.
#[derive(Drop)]
pub enum Command<'a> {
    /// Solve the instance.
    Solve(Solving<'a>),
    /// Check the certificate in the file of this name against the instance.
    Check(Source<'a>, &'a str),
    /// Report on the network of the certificate in the file of this name.
    Report(Source<'a>, &'a str),
    /// Write the text of a made-up instance.
    Make(Making),
    /// Make up an instance and solve it.
    Demo(Making, Search),
}

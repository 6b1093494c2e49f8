//! The items that a scan gives.

ghost use Rattle.std.specs.Prelude.{◌≡◌};
ghost use Rattle.cert_scan.specs.Versions.{version_number};

/// The version of a certificate's text.
#[derive(Clone, Copy, Debug, PartialEq, Eq)]
pub enum Version {
    /// Each cut has the part 1, and each dual has its own line.
    First,
    /// A cut states its part, and a run of equal duals of one origin is one line. The tree has leaves that are
    /// infeasible for a commodity (`block`) or for the wanted number of hubs (`count`).
    Second,
    /// As `Second`. Also, a cut may be marked Pareto-optimal; then each of its duals is followed by a proof.
    Third,
}

impl Version {
    /// The number of the version in the text.
    pub fn number(self) -> u32
        ensures { result ≡ version_number self }
    {
        match self {
            Version::First => 1,
            Version::Second => 2,
            Version::Third => 3,
        }
    }
}

/// A whole line of a certificate, or a part of a line with a list. Nodes count from 0, cuts from 1. Price and values of
/// a dual are below 10^33, all other numbers below 10^30. `last` says that the line ends after the item.
#[derive(Clone, Copy, Debug, PartialEq, Eq)]
pub enum Item {
    /// The version.
    Version(Version),
    /// The numbers of nodes and of candidates.
    Size {
        n: u32,
        q: u32,
    },
    /// The cost of the plan, in 10^-12.
    Cost(u128),
    /// The lower bound on every plan's cost, in 10^-12.
    Bound(u128),
    /// The next hub of the plan, greater than those before it.
    Hub {
        k: u32,
        last: bool,
    },
    /// The route of the commodity from `i` to `j`: its first hub `k` and its last hub `m`.
    Route {
        i: u32,
        j: u32,
        k: u32,
        m: u32,
    },
    /// The number of cuts.
    Cuts(u32),
    /// The start of a cut, with its number and its part. The cut is marked where its line goes on.
    Cut {
        x: u32,
        part: u32,
        last: bool,
    },
    /// The next hub of the cut's mark, greater than those before it.
    CoreHub {
        k: u32,
        last: bool,
    },
    /// The dual of a run of `run` commodities of one origin, the first from `i` to `j`, with its price in 10^-12.
    Dual {
        i: u32,
        j: u32,
        run: u32,
        a: u128,
        last: bool,
    },
    /// The next node that this dual lists, greater than those before it, and its value, in 10^-12.
    DualPair {
        k: u32,
        u: u128,
        last: bool,
    },
    /// The proof of the dual before it: its turns (how many times over the hubs count) and its scale.
    Proof {
        t: u32,
        g: u32,
        last: bool,
    },
    /// The next edge that this proof lists, in ascending order: its nodes `k` and `m`, where `k` is at most `m`, and
    /// its multiplicity.
    ProofPair {
        k: u32,
        m: u32,
        y: u64,
        last: bool,
    },
    /// The number of lines of the tree.
    Nodes(u32),
    /// Branching on a node.
    Branch(u32),
    /// A leaf, with its denominator.
    Leaf {
        denom: u32,
        last: bool,
    },
    /// The next cut that this leaf lists, with a greater number than those before it, and its weight.
    LeafPair {
        c: u128,
        w: u128,
        last: bool,
    },
    /// A leaf where every candidate is closed.
    Empty,
    /// A leaf that is infeasible for the commodity from `i` to `j`.
    Block {
        i: u32,
        j: u32,
    },
    /// A leaf that cannot have the wanted number of hubs.
    Count,
    /// The end of the text.
    End,
}

/// Why bytes are not the text of a certificate. Lines count from 1.
#[derive(Clone, Copy, Debug, PartialEq, Eq)]
pub enum Fault {
    /// A whole line that does not fit the grammar there, or anything after the last line.
    BadLine { line: u64 },
    /// The bytes end before this line ends.
    Ended { line: u64 },
}

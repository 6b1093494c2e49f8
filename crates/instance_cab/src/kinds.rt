ghost use Rattle.std.specs.Prelude.{◌≡◌, ◌≤◌};
ghost use Rattle.file_spec.specs.Places.{a_quantity};
ghost use Rattle.instance_cab.specs.Matrices.{places_of, wanted_of};

use hub_model::{MOST_COST_READ, MOST_DISTANCE, MOST_FLOW};

/// What the numbers of a list are.
#[derive(Clone, Copy)]
pub(crate) enum ListKind {
    /// Flows, in 10^-6.
    Flow,
    /// Distances, in 10^-3, to be divided by `divide`.
    Distance { divide: u32 },
    /// Fixed costs, in 10^-6.
    Cost,
}

impl ListKind {
    /// How many decimals count.
    pub(crate) fn places(&self) -> u32
        ensures value { result ≡ places_of self.now }
        ensures limit { result ≤ 6 }
    {
        match self {
            ListKind::Flow | ListKind::Cost => 6,
            ListKind::Distance { .. } => 3,
        }
    }

    /// The largest number that may be read.
    pub(crate) fn limit(&self) -> u64
        ensures { a_quantity (places_of self.now) result ≡ wanted_of self.now }
    {
        match self {
            ListKind::Flow => MOST_FLOW,
            ListKind::Distance { .. } => MOST_DISTANCE,
            ListKind::Cost => MOST_COST_READ as u64,
        }
    }
}

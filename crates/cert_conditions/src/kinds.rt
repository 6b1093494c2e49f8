//! The kinds of a failure.

ghost use Rattle.std.specs.Prelude.{◌≡◌};
ghost use Rattle.cert_conditions.specs.Kinds.{kind_of, kind_name};

/// The subject of a condition.
///
/// `BoundOverCost` fails where the bound is above the cost, and `Number` where the plan has another number of hubs than
/// required. `Length` fails where a route is longer than allowed, and `Core` where a marked cut is not Pareto-optimal.
/// `Block` fails where a commodity has a route. `Count` fails where a leaf has no room for the required hubs, or where a
/// line claims this of a branch that has room.
#[derive(Clone, Copy, Debug, PartialEq, Eq)]
pub enum Kind {
    Size,
    BoundOverCost,
    Hubs,
    Number,
    Route,
    Length,
    Cost,
    Dual,
    Sum,
    Core,
    Branch,
    Empty,
    Block,
    Count,
    CutNumber,
    Multiple,
    Weight,
    Leaf,
}

impl Kind {
    /// The name of the kind.
    pub fn name(&self) -> &'static str
        ensures { result.now ≡ kind_name (kind_of self.now) }
    {
        match self {
            Kind::Size => "Size",
            Kind::BoundOverCost => "BoundOverCost",
            Kind::Hubs => "Hubs",
            Kind::Number => "Number",
            Kind::Route => "Route",
            Kind::Length => "Length",
            Kind::Cost => "Cost",
            Kind::Dual => "Dual",
            Kind::Sum => "Sum",
            Kind::Core => "Core",
            Kind::Branch => "Branch",
            Kind::Empty => "Empty",
            Kind::Block => "Block",
            Kind::Count => "Count",
            Kind::CutNumber => "CutNumber",
            Kind::Multiple => "Multiple",
            Kind::Weight => "Weight",
            Kind::Leaf => "Leaf",
        }
    }
}

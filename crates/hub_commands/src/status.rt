//! The exit status of the program.

ghost use Rattle.std.specs.Prelude.{◌≡◌};
ghost use Rattle.hub_commands.specs.VerdictStatuses.{number_of};

/// The exit status of a run.
#[derive(Clone, Copy, Debug, PartialEq, Eq)]
pub enum Status {
    /// `solve`, `resolve`, `optimize`, `demo`: the bound is the cost. `check`: the bytes certify an optimal plan.
    /// `report`: they certify. `make`: the text was written.
    Done,
    /// `solve`, `resolve`, `optimize`, `demo`: the bound is below the cost, since the node limit was reached, or for
    /// `optimize` since the bound is within the gap. `check`: the bytes certify a plan with a bound below its cost.
    Stopped,
    /// `check`, `report`: the bytes do not certify. `resolve`, `optimize`: the older certificate was refused.
    No,
    /// The arguments are no command.
    Usage,
    /// The instance file or the costs file has a fault.
    Instance,
    /// Memory ran out.
    Memory,
    /// Reading a file failed.
    Read,
    /// Writing to an output failed.
    Write,
    /// `solve`, `optimize`, `resolve`: all candidates together are infeasible for a commodity, so there is no plan.
    Lacking,
}

impl Status {
    /// The exit status as a number, 0 to 8.
    pub fn number(self) -> u8
        ensures { result ≡ number_of self }
    {
        match self {
            Status::Done => 0,
            Status::Stopped => 1,
            Status::No => 2,
            Status::Usage => 3,
            Status::Instance => 4,
            Status::Memory => 5,
            Status::Read => 6,
            Status::Write => 7,
            Status::Lacking => 8,
        }
    }
}

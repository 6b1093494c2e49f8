//! Feasibility of a candidate set: whether every commodity has a route.

ghost use Rattle.std.specs.Prelude.{◌≡◌};
ghost use Rattle.hub_spec.specs.Plans.{IsCandidateSet};
ghost use Rattle.hub_spec.specs.Lacking.{lacking};

use hub_model::{HubSet, Instance};

/// Origin and destination of the first commodity that has no allowed route through the set, if there is one. Otherwise
/// the set is a hub set. It allocates nothing.
pub fn lacking(instance: &Instance, set: &HubSet) -> Option<(u32, u32)>
    requires { IsCandidateSet instance.now set.now }
    ensures { result ≡ lacking instance.now set.now }
{
    leg_duals::lacking(instance, set.members())
}

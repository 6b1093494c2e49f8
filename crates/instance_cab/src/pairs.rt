ghost use Rattle.std.specs.Prelude.{◌≡◌, ◌*◌, ◌/◌, ◌%◌, ◌≤◌, true, false, None, IfOk, IfErr, OnOk};
ghost use Rattle.hub_spec.specs.Limits.{most_nodes};
ghost use Rattle.file_spec.specs.Faults.{missing_pair};
ghost use Rattle.hub_model.specs.Faults.{fault_of};
ghost use Rattle.instance_cab.specs.ListedRows.{taken_at, flow_of, distance_of, listed_flows, listed_distances, lacks, first_lack, IsLack};

use crate::distances::divided_distance;
use crate::rows::Listed;
use hub_model::{InstanceFault, Numbers, Refusal, Wanted};
use std::alloc::{AllocError, Global};
use std::collections::BTreeMap;

/// The flows and the divided distances of all pairs of n nodes, of what the rows say; or the fault that a pair lacks
/// its row.
pub(crate) fn matrices(
    alloc: Global,
    taken: &BTreeMap<u32, Listed>,
    n: u32,
    divide: u32,
) -> Result<(Numbers, Numbers), Refusal>
    requires least { 1 ≤ n }
    requires most { n ≤ most_nodes }
    requires divide { 1 ≤ divide }
    ensures whole { OnOk result (first_lack n taken.now (n * n) ≡ None) }
    ensures flows { IfOk result (λ m. m.0 ≡ listed_flows taken.now (n * n)) }
    ensures distances { IfOk result (λ m. m.1 ≡ listed_distances divide n taken.now (n * n)) }
    ensures fault { IfErr result (IsLack n taken.now) }
{
    let mut flows = Vec::with_capacity(alloc, n as usize * n as usize)?;
    let mut distances = Vec::with_capacity(alloc, n as usize * n as usize)?;
    for commodity in 0..n * n {
        let listed = listed(taken, n, commodity).map_err(Refusal::Fault)?;
        flows
            .push(i128::from(listed.flow))
            .map_err(AllocError::from)?;
        let distance = divided_distance(n, divide, commodity, listed.distance);
        distances
            .push(i128::from(distance))
            .map_err(AllocError::from)?;
    }
    Ok((Numbers::from_vec(flows), Numbers::from_vec(distances)))
}

// What the rows say of a commodity. One from a node to itself needs no row.
fn listed(taken: &BTreeMap<u32, Listed>, n: u32, commodity: u32) -> Result<Listed, InstanceFault>
    requires { 1 ≤ n }
    ensures flow { IfOk result (λ l. l.flow ≡ flow_of (taken_at taken.now commodity)) }
    ensures distance { IfOk result (λ l. l.distance ≡ distance_of (taken_at taken.now commodity)) }
    ensures whole { OnOk result (lacks n taken.now commodity ≡ false) }
    ensures lack { IfErr result (λ f. lacks n taken.now commodity ≡ true) }
    ensures fault { IfErr result (λ f. fault_of f ≡ missing_pair (commodity / n) (commodity % n)) }
{
    if let Some(listed) = taken.get(&commodity) {
        return Ok(*listed);
    }
    let (from, to) = (commodity / n, commodity % n);
    if from == to {
        return Ok(Listed {
            flow: 0,
            distance: 0,
        });
    }
    Err(InstanceFault::Missing {
        what: Wanted::Pair(from, to),
    })
}

//! What a commodity costs through a hub edge, where that is allowed.

ghost use Rattle.std.specs.Prelude.{◌≡◌, ◌<◌};
ghost use Rattle.hub_spec.specs.Edges.{edge_cost};

use hub_model::{Instance, cost_of_way};

/// The cost of the commodity from `i` to `j` through the hub edge of `k` and `m`, in its cheaper direction, if one is
/// allowed, in 10^-12.
pub(crate) fn cost_of_edge(instance: &Instance, i: u32, j: u32, k: u32, m: u32) -> Option<u128>
    requires from { i < instance.now.size }
    requires to { j < instance.now.size }
    requires first { k < instance.now.size }
    requires last { m < instance.now.size }
    ensures { result ≡ edge_cost instance.now (i, j) k m }
{
    let forth = cost_of_way(instance, i, j, k, m);
    let back = cost_of_way(instance, i, j, m, k);
    match (forth, back) {
        (Some(forth), Some(back)) => Some(forth.min(back)),
        (Some(forth), None) => Some(forth),
        (None, back) => back,
    }
}

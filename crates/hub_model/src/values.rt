//! Values of nodes, in the sparse list of a dual.

ghost use Rattle.std.specs.Prelude.{◌≡◌, ◌+◌, ◌^◌, ◌<◌, ◌≤◌, [], ◌∷◌, ◌++◌, length, slice_index, All, vec_len, vec_capacity, IfOk};
ghost use Rattle.hub_spec.specs.Limits.{most_cost};
ghost use Rattle.hub_spec.specs.Separation.{values_listed};
ghost use Rattle.hub_model.specs.Prices.{signed_values};
ghost use Rattle.hub_model.specs.Values.{listed_dual};

use crate::{Dual, Instance, signed};
use std::alloc::{AllocError, Global};

/// Appends the node with its value, if the value is above 0. It allocates nothing.
pub fn list_value(node: u32, value: u128, list: &mut Vec<(u32, i128)>)
    requires limit { value < 2 ^ 127 }
    requires room { vec_len list.old < vec_capacity list.old }
    ensures are { list.new.items ≡ list.old.items ++ signed_values (values_listed (λ _. value) (node ∷ [])) }
    ensures few { vec_len list.new ≤ vec_len list.old + 1 }
    ensures room { vec_capacity list.old ≤ vec_capacity list.new }
{
    if value > 0 {
        list.push_reserved((node, signed(value)));
    }
}

/// Replaces the list by the nodes whose value is above 0, in their order, each with its value. `values` is indexed by
/// node. It allocates nothing.
pub fn list_values(nodes: &[u32], values: &[u128], list: &mut Vec<(u32, i128)>)
    requires nodes { All (λ k. k < length values.now) nodes.now }
    requires room { length nodes.now ≤ vec_capacity list.old }
    requires limit { All (λ v. v < 2 ^ 127) values.now }
    ensures are { list.new.items ≡ signed_values (values_listed (slice_index values.now) nodes.now) }
    ensures room { vec_capacity list.old ≤ vec_capacity list.new }
{
    list.clear();
    for k in nodes {
        list_value(*k, values[*k as usize], list);
    }
}

/// The dual of this price that lists the candidates that have a value in this list by node.
pub fn listed_dual(
    alloc: Global,
    instance: &Instance,
    price: u128,
    values: &[u128],
) -> Result<Dual, AllocError>
    requires price { price ≤ most_cost }
    requires by_node { length values.now ≡ instance.now.size }
    requires values { All (λ v. v ≤ most_cost) values.now }
    ensures { IfOk result (λ d. d ≡ listed_dual instance.now price values.now) }
{
    let candidates = instance.candidates();
    let mut u = Vec::with_capacity(alloc, candidates.len())?;
    list_values(candidates, values, &mut u);
    Ok(Dual::new(signed(price), u))
}

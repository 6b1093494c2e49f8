//! Membership in lists of nodes. `nodes` tells whether a list ascends.

ghost use Rattle.std.specs.Prelude.{◌↔◌, IsTrue, All, Contains};

/// Tells whether the node is in the list.
pub fn is_among(nodes: &[u32], k: u32) -> bool
    ensures { IsTrue result ↔ Contains nodes.now k }
{
    nodes.contains(&k)
}

/// Tells whether all members are in the list.
pub fn are_among(nodes: &[u32], members: &[u32]) -> bool
    ensures { IsTrue result ↔ All (Contains nodes.now) members.now }
{
    for k in members {
        if !is_among(nodes, *k) {
            return false;
        }
    }
    true
}

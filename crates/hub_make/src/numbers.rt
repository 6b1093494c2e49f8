//! The numbers of a made-up instance; nodes count from 1.

ghost use Rattle.std.specs.Prelude.{◌≡◌, ◌≤◌};
ghost use Rattle.hub_make.specs.Numbers.{made_x, made_y, made_flow, made_cost};

/// The first coordinate of node i.
pub(crate) fn x(seed: u64, i: u64) -> u64
    requires seed { seed ≤ 1000000 }
    requires node { i ≤ 200 }
    ensures { result ≡ made_x seed i }
{
    (seed * i * i + 37 * i) % 1000
}

/// The second coordinate of node i.
pub(crate) fn y(seed: u64, i: u64) -> u64
    requires seed { seed ≤ 1000000 }
    requires node { i ≤ 200 }
    ensures { result ≡ made_y seed i }
{
    (seed * i + 61 * i * i) % 1000
}

/// The flow from node i to node j.
pub(crate) fn flow(seed: u64, i: u64, j: u64) -> u64
    requires seed { seed ≤ 1000000 }
    requires origin { i ≤ 200 }
    requires destination { j ≤ 200 }
    ensures { result ≡ made_flow seed i j }
{
    1 + (i * j + seed) % 9
}

/// The fixed cost of node i, among so many nodes.
pub(crate) fn fixed_cost(seed: u64, size: u64, i: u64) -> u64
    requires seed { seed ≤ 1000000 }
    requires size { size ≤ 200 }
    requires node { i ≤ 200 }
    ensures { result ≡ made_cost seed size i }
{
    500 * size + 100 * ((seed + i) % 7)
}

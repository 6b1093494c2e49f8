//! Entries inside a hub set.

ghost use Rattle.std.specs.Prelude.{ℕ, ◌<◌, ◌≡◌, ◌↔◌, IsTrue, Contains, length, slice_index_or};
ghost use Rattle.hub_edges.specs.Rows.{Entry, IsInside, IsFirstInside};

/// The first of the entries whose hubs are both among these.
pub(crate) fn first_inside(entries: &[(u32, u32, i128)], hubs: &[u32]) -> (u32, u32, i128)
    requires { (e : Entry) × Contains entries.now e × IsInside hubs.now e }
    ensures { IsFirstInside hubs.now entries.now result }
{
    let mut at = 0;
    while !is_inside(hubs, entries[at]) {
        at += 1;
    }
    entries[at]
}

fn is_inside(hubs: &[u32], entry: (u32, u32, i128)) -> bool
    ensures { IsTrue result ↔ IsInside hubs.now entry }
{
    hubs.contains(&entry.0) && hubs.contains(&entry.1)
}

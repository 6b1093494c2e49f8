//! The numbers of a whole row, from its stored part.

ghost use Rattle.std.specs.Prelude.{◌≡◌, ◌+◌, ◌≤◌, length, slice_index, All, pos};
ghost use Rattle.frac_rows.specs.Rows.{number};
ghost use Rattle.plain_rows.specs.Flat.{spread_number, spread, owners, IsSpread};

/// The column that the row has to itself: its basic column, or for the objective row that of v.
pub(crate) fn owner_of(basis: &[u32], v: usize, row: usize) -> usize
    requires { row ≤ length basis.now }
    ensures { result ≡ slice_index (owners v basis.now) row }
{
    if row < basis.len() {
        return basis[row] as usize;
    }
    v
}

/// The number of the row in a column, where its own column is `owner`.
pub(crate) fn number(outside: &[u32], kept: &[i64], owner: usize, v: usize, column: usize) -> i64
    requires long { length kept.now ≡ length outside.now + 2 }
    requires column { column ≤ v + 1 }
    ensures { result ≡ number (spread outside.now owner v kept.now) column }
{
    if column > v {
        return kept[outside.len()];
    }
    number_before_right(outside, kept, owner, column)
}

// The same for a column before the right side.
fn number_before_right(outside: &[u32], kept: &[i64], owner: usize, column: usize) -> i64
    requires { length kept.now ≡ length outside.now + 2 }
    ensures { result ≡ spread_number outside.now kept.now owner column }
{
    for c in 0..outside.len() {
        if outside[c] as usize == column {
            return kept[c];
        }
    }
    if column == owner {
        return kept[outside.len() + 1];
    }
    0
}

/// Writes the numbers of the row in all columns, where its own column is `owner`. All are 0 at first.
pub(crate) fn write_spread(outside: &[u32], kept: &[i64], owner: usize, v: usize, out: &mut [i64])
    requires columns { IsSpread outside.now owner v }
    requires long { length kept.now ≡ length outside.now + 2 }
    requires room { length out.old ≡ v + 2 }
    requires zeros { All (λ z. z ≡ pos 0) out.old }
    ensures { out.new ≡ spread outside.now owner v kept.now }
{
    for c in 0..outside.len() {
        out[outside[c] as usize] = kept[c];
    }
    out[owner] = kept[outside.len() + 1];
    out[v + 1] = kept[outside.len()];
}

//! The total and the loads of a cut.

ghost use Rattle.std.specs.Prelude.{◌≡◌, ◌+◌, ◌<◌, ◌≤◌, pos, length, take, IfOk};
ghost use Rattle.hub_spec.specs.Cuts.{cut_by, total};
ghost use Rattle.hub_model.specs.HubCuts.{AreLoads, HasLoadsWithin, ListNodes, most_sum};

use crate::Dual;
use std::alloc::{AllocError, Global};

/// The sum of the prices.
pub(crate) fn total_of(rows: &[Dual]) -> i128
    requires { total (cut_by rows.now) ≤ most_sum }
    ensures { result ≡ pos (total (cut_by rows.now)) }
{
    let mut sum = 0;
    for dual in rows {
        sum += dual.a();
    }
    sum
}

/// The sum of each node's values.
pub(crate) fn loads_of(alloc: Global, size: u32, rows: &[Dual]) -> Result<Vec<i128>, AllocError>
    requires nodes { ListNodes size rows.now }
    requires limit { HasLoadsWithin (cut_by rows.now) }
    ensures size { IfOk result (λ loads. length loads.items ≡ size) }
    ensures loads { IfOk result (λ loads. AreLoads loads.items (cut_by rows.now)) }
{
    let mut loads = vec![in alloc; 0; size as usize]?;
    for t in 0..rows.len() {
        add_row(&mut loads, rows, t);
    }
    Ok(loads)
}

/// Adds the values of the row `t` to the loads of the rows before it.
fn add_row(loads: &mut [i128], rows: &[Dual], t: usize)
    requires row { t < length rows.now }
    requires nodes { ListNodes (length loads.old) rows.now }
    requires limit { HasLoadsWithin (cut_by rows.now) }
    requires before { AreLoads loads.old (cut_by (take t rows.now)) }
    ensures { AreLoads loads.new (cut_by (take (t + 1) rows.now)) }
{
    for (k, value) in rows[t].u() {
        loads[*k as usize] += *value;
    }
}

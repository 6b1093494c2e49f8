//! The prices of all origins.

ghost use Rattle.std.specs.Prelude.{◌≡◌, ◌*◌, length};
ghost use Rattle.std.specs.List.{AllZip, range_with_len};
ghost use Rattle.value_cuts.specs.Prices.{AreRowPrices};
ghost use Rattle.value_cuts.specs.Origins.{IsPriceRow};

use crate::{CandidateLegs, Values};

/// Puts the rows of the origins, which stand in the order of the origins, one after another.
pub(crate) fn put_rows(
    tables: &CandidateLegs,
    _values: &Values,
    rows: &[Vec<u64>],
    prices: &mut [u64],
)
    requires each { AllZip (λ i row. IsPriceRow tables.now _values.now i row.items) (range_with_len 0 tables.now.size) rows.now }
    requires long { length prices.old ≡ tables.now.size * tables.now.size }
    ensures { AreRowPrices tables.now _values.now prices.new }
{
    let size = tables.instance().size();
    for i in 0..size {
        let start = i as usize * size as usize;
        let row = &mut prices[start..start + size as usize];
        row.copy_from_slice(&rows[i as usize]);
    }
}

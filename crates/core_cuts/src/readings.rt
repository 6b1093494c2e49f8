//! The reading of an optimal tableau.

ghost use Rattle.std.specs.Prelude.{◌≡◌, ◌<◌, ◌≤◌, length, None, IfOk, IfSome};
ghost use Rattle.hub_spec.specs.Limits.{most_part};
ghost use Rattle.frac_rows.specs.Theorems.{IsBasic, AreRightsLow};
ghost use Rattle.core_cuts.specs.Readings.{Reading};
ghost use Rattle.core_cuts.specs.BasicRatios.{IsLeastReading};

use crate::least_parts::least_part;
use crate::ratios::ratios_of;
use crate::unit_prices::UnitPrices;
use hub_model::Instance;
use plain_rows::PlainRows;
use std::alloc::{AllocError, Global};

/// Price and values of the table's basic solution with the least part, if that is within its limit.
pub(crate) fn least_reading(
    alloc: Global,
    instance: &Instance,
    rows: &PlainRows,
) -> Result<Option<UnitPrices>, AllocError>
    requires few { length instance.now.candidates ≤ 200 }
    requires basic { IsBasic rows.now }
    requires rights { AreRightsLow rows.now }
    ensures some { IfOk result (λ found. IfSome found (λ r. IsLeastReading instance.now rows.now r)) }
    ensures limit { IfOk result (λ found. IfSome found (λ r. r.part ≤ most_part)) }
    ensures none { IfOk result (λ found. found ≡ None
        → (r : Reading) × IsLeastReading instance.now rows.now r × (most_part < r.part)) }
{
    let variables = instance.candidates().len() as u32 + 1;
    let ratios = ratios_of(alloc, rows, variables)?;
    match least_part(&ratios) {
        Some(part) => Ok(Some(UnitPrices::of(alloc, &ratios, part)?)),
        None => Ok(None),
    }
}

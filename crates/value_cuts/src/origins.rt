//! The prices of one origin, as a block of work.

ghost use Rattle.std.specs.Prelude.{◌≡◌, ◌<◌, length};
ghost use Rattle.cut_model.specs.ValueRows.{AreValuesFor};
ghost use Rattle.value_cuts.specs.Origins.{IsPriceRow};

use crate::{CandidateLegs, PriceScratch, Values, set_origin_prices};
use claim_board::Job;
use std::alloc::{AllocError, Global};

/// The origins as a job of the worker pool, for the prices of each: block i is origin i.
#[derive(Drop)]
pub(crate) struct PricesByOrigin<'a> {
    pub(crate) tables: &'a CandidateLegs<'a>,
    pub(crate) values: &'a Values<'a>,
}

impl<'a> Job<Vec<u64>> for PricesByOrigin<'a> {
    type Scratch = PriceScratch;

    ghost answer = { λ job i row. IsPriceRow job.tables.now job.values.now i row.items };

    ghost accepts = { λ job i. (i < job.tables.now.size) × AreValuesFor job.tables.now job.values.now };

    ghost serves = { λ job scratch. scratch ≡ length job.tables.now.candidates };

    fn new_scratch(&self, alloc: Global) -> Result<PriceScratch, AllocError> {
        PriceScratch::new(alloc, self.tables)
    }

    fn at(
        &self,
        alloc: Global,
        scratch: &mut PriceScratch,
        block: u32,
    ) -> Result<Vec<u64>, AllocError> {
        let mut row = vec![in alloc; 0; self.tables.instance().size() as usize]?;
        set_origin_prices(self.tables, self.values, block, scratch, &mut row);
        Ok(row)
    }
}

//! A workspace for duals from dual values.

ghost use Rattle.std.specs.Prelude.{◌≡◌, ◌+◌, ◌*◌, ◌<◌, ◌≤◌, pos, length, IfOk};
ghost use Rattle.hub_spec.specs.Separation.{AreListedValues};
ghost use Rattle.hub_model.specs.Prices.{signed_values};
ghost use Rattle.cut_model.specs.ValueRows.{commodity_dual, AreValuesFor};
ghost use Rattle.value_cuts.specs.Prices.{ArePricesFrom};
ghost use Rattle.cut_pool.specs.Packed.{row_of, AreRowsFrom};
ghost use Rattle.dual_lender.specs.Lenders.{HasPricesFrom};

use cut_pool::PackedValues;
use std::alloc::{AllocError, Global};
use std::marker::Model;
use value_cuts::{CandidateLegs, DualScratch, ListedRow, PriceScratch, price};

/// Room for the duals of an instance's cuts by values: the tables of its legs, the rows and the prices of an origin, and
/// a dual.
#[derive(Drop)]
pub(crate) struct ValueRoom<'a> {
    tables: &'a CandidateLegs<'a>,
    rows: Vec<u32>,
    prices: Vec<u64>,
    scratch: PriceScratch,
    made: DualScratch,
}

impl<'a> Model for ValueRoom<'a> {
    ghost use Rattle.value_cuts.specs.Prices.{ArePricesFrom};
    ghost use Rattle.cut_pool.specs.Packed.{row_of, AreRowsFrom};
    ghost use Rattle.dual_lender.specs.Lenders.{RoomState};
    ghost use Rattle.dual_lender.specs.LenderParts.{IsValueRoom};

    ghost Value = { RoomState };

    ghost view = { λ s. record { problem = s.tables.now; rows = s.rows.items; prices = s.prices.items; dual = s.made.dual } };

    ghost invariant = { IsValueRoom };
}

impl<'a> ValueRoom<'a> {
    /// Room for the instance of the tables.
    #[tactic(auto, using(cut_pool::proofs::Packing::small_cells))]
    pub(crate) fn new(
        alloc: Global,
        tables: &'a CandidateLegs<'a>,
    ) -> Result<ValueRoom<'a>, AllocError>
        ensures { IfOk result (λ r. r.problem ≡ tables.now) }
    {
        let size = tables.instance().size() as usize;
        let rows = vec![in alloc; 0; size * tables.places()]?;
        let prices = vec![in alloc; 0; size]?;
        let scratch = PriceScratch::new(alloc, tables)?;
        let made = DualScratch::new(alloc, tables)?;
        Ok(ValueRoom {
            tables,
            rows,
            prices,
            scratch,
            made,
        })
    }

    /// Unpacks the rows of all commodities from `i`, and works out their prices. It takes no memory.
    pub(crate) fn set_prices(&mut self, values: &PackedValues, i: u32)
        requires values { AreValuesFor self.old.problem values.now }
        requires origin { i < self.old.problem.size }
        ensures problem { self.new.problem ≡ self.old.problem }
        ensures prices { HasPricesFrom self.old.problem values.now i self.new }
    {
        values.unpack_origin(i, &mut self.rows);
        set_row_prices(
            self.tables,
            values,
            i,
            &self.rows,
            &mut self.scratch,
            &mut self.prices,
        );
    }

    /// Makes the dual of the commodity from `i` to `j`, where the prices from `i` were worked out. It takes no memory.
    pub(crate) fn make_dual(&mut self, values: &PackedValues, i: u32, j: u32)
        requires values { AreValuesFor self.old.problem values.now }
        requires origin { i < self.old.problem.size }
        requires destination { j < self.old.problem.size }
        requires prices { HasPricesFrom self.old.problem values.now i self.old }
        ensures problem { self.new.problem ≡ self.old.problem }
        ensures prices { HasPricesFrom self.old.problem values.now i self.new }
        ensures dual { self.new.dual ≡ commodity_dual self.old.problem values.now (i, j) }
    {
        let price = self.prices[j as usize];
        let row = ListedRow {
            unit: values.unit(),
            row: row_at(&self.rows, j, self.tables.places()),
        };
        self.made
            .make(self.tables, i, j, &row, price, values.offset());
    }

    /// The tables.
    pub(crate) fn tables(&self) -> &'a CandidateLegs<'a>
        ensures { result.now ≡ self.now.problem }
    {
        self.tables
    }

    /// The price of the dual that was made last, and its nodes with their values, ascending, each value above 0.
    pub(crate) fn dual(&self) -> (i128, &[(u32, i128)])
        ensures price { result.0 ≡ pos self.now.dual.a }
        ensures values { result.1.now ≡ signed_values self.now.dual.u }
        ensures listed { AreListedValues self.now.dual.u }
    {
        self.made.dual()
    }
}

// The row of the destination `j`, among an origin's rows of so many places each.
fn row_at(rows: &[u32], j: u32, places: usize) -> &[u32]
    requires { j * places + places ≤ length rows.now }
    ensures row { result.now ≡ row_of places rows.now j }
    ensures long { length result.now ≡ places }
{
    let start = j as usize * places;
    &rows[start..start + places]
}

// Sets the price of each commodity from `i` by its row.
fn set_row_prices(
    tables: &CandidateLegs,
    values: &PackedValues,
    i: u32,
    rows: &[u32],
    scratch: &mut PriceScratch,
    prices: &mut [u64],
)
    requires values { AreValuesFor tables.now values.now }
    requires origin { i < tables.now.size }
    requires rows { AreRowsFrom values.now i rows.now }
    requires room { scratch.old ≡ length tables.now.candidates }
    requires long { length prices.old ≡ tables.now.size }
    ensures room { scratch.new ≡ scratch.old }
    ensures prices { ArePricesFrom tables.now values.now i prices.new tables.now.size }
{
    let unit = values.unit();
    for j in 0..tables.instance().size() {
        let row = row_at(rows, j, tables.places());
        prices[j as usize] = price(tables, i, j, unit, row, scratch);
    }
}

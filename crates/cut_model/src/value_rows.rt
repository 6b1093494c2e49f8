//! The values of all commodities.

ghost use Rattle.std.specs.Prelude.{◌≡◌, ◌+◌, ◌*◌, ◌<◌, ◌↔◌, length, slice_range, IfSome, IsSome};
ghost use Rattle.cut_model.specs.ValueRows.{row_for, AreValuesFor};

use hub_model::Instance;
use std::marker::Model;

/// Borrowed dual values per unit of flow: for each commodity a row, with a value for each candidate, as multiples of
/// `unit` times 10^-6. And the offset of the first commodity, in 10^-12, for its price and for each of its values.
///
/// Rows may hold any numbers. What is above the ceiling of lengths counts as the ceiling. An offset above the fixed costs
/// of all candidates counts as these.
#[derive(Drop)]
pub struct Values<'a> {
    size: usize,
    places: usize,
    unit: u32,
    offset: u128,
    items: &'a [u32],
}

impl<'a> Model for Values<'a> {
    ghost use Rattle.cut_model.specs.ValueRows.{ValueRows};
    ghost use Rattle.cut_model.specs.LentRows.{lent_rows, AreLentRows};

    ghost Value = { ValueRows };

    ghost view = { lent_rows };

    ghost invariant = { AreLentRows };
}

impl<'a> Values<'a> {
    /// The items as values in this unit, without an offset, if they are one for each candidate of each of the instance's
    /// commodities.
    #[tactic(auto, using(hub_model::proofs::CandidateNodes::few_places))]
    pub fn over(instance: &Instance, unit: u32, items: &'a [u32]) -> Option<Values<'a>>
        ensures are { let n = instance.now.size in let q = length instance.now.candidates in
            IfSome result (λ v. v ≡ record { size = n; places = q; unit = unit; offset = 0; items = items.now }) }
        ensures fit { IfSome result (AreValuesFor instance.now) }
        ensures exact { let n = instance.now.size in let q = length instance.now.candidates in
            IsSome result ↔ (length items.now ≡ n * n * q) }
    {
        let size = instance.size() as usize;
        let places = instance.candidates().len();
        if items.len() != size * size * places {
            return None;
        }
        Some(Values {
            size,
            places,
            unit,
            offset: 0,
            items,
        })
    }

    /// The unit, in 10^-6.
    pub fn unit(&self) -> u32
        ensures { result ≡ self.now.unit }
    {
        self.unit
    }

    /// The offset of the first commodity, in 10^-12.
    pub fn offset(&self) -> u128
        ensures { result ≡ self.now.offset }
    {
        self.offset
    }

    /// Sets the offset of the first commodity, in 10^-12.
    pub fn set_offset(&mut self, offset: u128)
        ensures { self.new ≡ record self.old { offset = offset } }
    {
        self.offset = offset;
    }

    /// The rows of all commodities, one after another.
    pub fn rows(&self) -> &[u32]
        ensures value { result.now ≡ self.now.items }
        ensures long { length result.now ≡ self.now.size * self.now.size * self.now.places }
    {
        self.items
    }

    /// The row of the commodity from `i` to `j`.
    pub fn row(&self, i: u32, j: u32) -> &[u32]
        requires origin { i < self.now.size }
        requires destination { j < self.now.size }
        ensures row { result.now ≡ row_for self.now (i, j) }
        ensures long { length result.now ≡ self.now.places }
    {
        self.row_at(i as usize * self.size + j as usize)
    }

    /// The row of the commodity of this number.
    pub fn row_at(&self, number: usize) -> &[u32]
        requires { number < self.now.size * self.now.size }
        ensures row { let start = number * self.now.places in
            result.now ≡ slice_range self.now.items start (start + self.now.places) }
        ensures long { length result.now ≡ self.now.places }
    {
        let start = number * self.places;
        &self.items[start..start + self.places]
    }
}

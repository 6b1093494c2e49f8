//! Dual values without their zeros.

ghost use Rattle.std.specs.Prelude.{◌≡◌, ◌*◌, ◌<◌, ◌≤◌, [], ◌∷◌, ◌++◌, length, slice_set, IfOk, OnOk};
ghost use Rattle.hub_spec.specs.Limits.{most_nodes};
ghost use Rattle.cut_model.specs.ValueRows.{AreValuesFor};
ghost use Rattle.cut_pool.specs.Packed.{unpacked, ArePacked, AreRowsFrom};

use cut_model::Values;
use hub_model::Instance;
use std::alloc::{AllocError, Global};
use std::marker::Model;

/// A number above 0 in a row of numbers, and where it stands, counted from 0. The number is held by its bytes, so that
/// an item takes six, and not eight for where a number may begin.
#[derive(Drop)]
pub(crate) struct PackedItem {
    at: u16,
    number: [u8; 4],
}

impl Model for PackedItem {
    ghost use Rattle.std.specs.Int.{w32, from_le_bytes};
    ghost use Rattle.cut_pool.specs.Items as listed;

    ghost Value = { listed.PackedItem };

    ghost view = { λ s. record { at = s.at; number = from_le_bytes w32 s.number } };
}

impl PackedItem {
    // This number at this place.
    fn new(at: u16, number: u32) -> PackedItem
        ensures { result ≡ record { at = at; number = number } }
    {
        PackedItem {
            at,
            number: number.to_le_bytes(),
        }
    }

    fn place(&self) -> usize
        ensures { result ≡ self.now.at }
    {
        self.at as usize
    }

    fn number(&self) -> u32
        ensures { result ≡ self.now.number }
    {
        u32::from_le_bytes(self.number)
    }
}

/// The dual values of all commodities in sparse form: for each origin a list of those above 0. It is seen as `Values`
/// are.
#[derive(Drop)]
pub struct PackedValues {
    size: usize,
    places: usize,
    unit: u32,
    offset: u128,
    origins: Vec<Vec<PackedItem>>,
}

impl Model for PackedValues {
    ghost use Rattle.cut_model.specs.ValueRows.{ValueRows};
    ghost use Rattle.cut_pool.specs.PackedParts.{packed_rows, ArePackedRows};

    ghost Value = { ValueRows };

    ghost view = { packed_rows };

    ghost invariant = { ArePackedRows };
}

impl PackedValues {
    /// The instance's values in sparse form.
    #[tactic(auto, using(crate::proofs::Packing::small_cells))]
    pub fn pack(
        alloc: Global,
        instance: &Instance,
        values: &Values,
    ) -> Result<PackedValues, AllocError>
        requires { AreValuesFor instance.now values.now }
        ensures { IfOk result (λ v. v ≡ values.now) }
    {
        let size = instance.size() as usize;
        let places = instance.candidates().len();
        let origins = packed_origins(alloc, values.rows(), size, size * places)?;
        Ok(PackedValues {
            size,
            places,
            unit: values.unit(),
            offset: values.offset(),
            origins,
        })
    }

    /// The unit, in 10^-6.
    pub fn unit(&self) -> u32
        ensures { result ≡ self.now.unit }
    {
        self.unit
    }

    /// The offset of the first commodity, in 10^-12.
    pub fn offset(&self) -> u128
        ensures { result ≡ self.now.offset }
    {
        self.offset
    }

    /// Writes the rows of all commodities from `i`, one after another. It allocates nothing.
    pub fn unpack_origin(&self, i: u32, rows: &mut [u32])
        requires origin { i < self.now.size }
        requires long { length rows.old ≡ self.now.size * self.now.places }
        ensures { AreRowsFrom self.now i rows.new }
    {
        unpack(&self.origins[i as usize], rows);
    }
}

// The numbers packed, in lists of so many numbers each.
#[tactic(auto, using(crate::proofs::Packing::list_within))]
fn packed_origins(
    alloc: Global,
    numbers: &[u32],
    count: usize,
    cells: usize,
) -> Result<Vec<Vec<PackedItem>>, AllocError>
    requires long { length numbers.now ≡ count * cells }
    requires limit { cells ≤ most_nodes * most_nodes }
    ensures { IfOk result (ArePacked numbers.now count cells) }
{
    let mut origins = Vec::with_capacity(alloc, count)?;
    for i in 0..count {
        let start = i * cells;
        let items = packed(alloc, &numbers[start..start + cells])?;
        origins.push(items)?;
    }
    Ok(origins)
}

// The numbers above 0.
fn packed(alloc: Global, numbers: &[u32]) -> Result<Vec<PackedItem>, AllocError>
    requires { length numbers.now ≤ most_nodes * most_nodes }
    ensures { IfOk result (λ items. unpacked (length numbers.now) items.items ≡ numbers.now) }
{
    let mut items = Vec::with_capacity(alloc, count_above_zero(numbers))?;
    for at in 0..numbers.len() {
        list(&mut items, at as u16, numbers[at])?;
    }
    Ok(items)
}

// How many of the numbers are above 0.
fn count_above_zero(numbers: &[u32]) -> usize {
    let mut count = 0usize;
    for number in numbers {
        if *number > 0 {
            count = count.wrapping_add(1);
        }
    }
    count
}

// Lists the number, if it is above 0.
fn list(items: &mut Vec<PackedItem>, at: u16, number: u32) -> Result<(), AllocError>
    ensures zero { number ≡ 0 → OnOk result (items.new.items ≡ items.old.items) }
    ensures above { 0 < number
        → OnOk result (items.new.items ≡ items.old.items ++ record { at = at; number = number } ∷ []) }
{
    if number == 0 {
        return Ok(());
    }
    items.push(PackedItem::new(at, number))?;
    Ok(())
}

// Writes the items over zeros.
fn unpack(items: &[PackedItem], numbers: &mut [u32])
    ensures { numbers.new ≡ unpacked (length numbers.old) items.now }
{
    numbers.fill(0);
    for item in items {
        put(numbers, item.place(), item.number());
    }
}

// Sets the number at this place, if there is one.
#[tactic(auto, using(crate::proofs::Packing::set_beyond))]
fn put(numbers: &mut [u32], at: usize, number: u32)
    ensures { numbers.new ≡ slice_set numbers.old at number }
{
    if at >= numbers.len() {
        return;
    }
    numbers[at] = number;
}

//! Vectors, rows of flat tables, and the inner loops over them that take most of the time.
//!
//! An index outside a vector reads as 0 and is not written; a row outside a table is empty. No number here is relied
//! on. A loop over several vectors ends at the shortest, so that it has one end and can be vectorized.

/// The length that stands for no route. The sum of three of them does not wrap.
pub const FAR: u32 = 1 << 30;

/// The signed number that stands for no route.
pub const NONE: i32 = 1 << 29;

/// The length as a signed number, at most `NONE`.
pub fn small(length: u32) -> i32 {
    length.min(NONE as u32) as i32
}

/// The number in 32 bits, or `u32::MAX` if it does not fit.
pub fn short(number: usize) -> u32 {
    number.min(u32::MAX as usize) as u32
}

/// The row of this index in a flat table of `width` columns.
pub fn row<T>(table: &[T], index: usize, width: usize) -> &[T] {
    let start = index.wrapping_mul(width);
    table.get(start..start.wrapping_add(width)).unwrap_or(&[])
}

/// The row of this index in a flat table of `width` columns, mutable.
pub fn row_mut<T>(table: &mut [T], index: usize, width: usize) -> &mut [T] {
    let start = index.wrapping_mul(width);
    table
        .get_mut(start..start.wrapping_add(width))
        .unwrap_or(&mut [])
}

/// The item at this index, or the default value.
pub fn at<T: Copy + Default + Drop>(items: &[T], index: usize) -> T {
    items.get(index).copied().unwrap_or_default()
}

/// The number of marks that are set.
pub fn marked(marks: &[bool]) -> usize {
    marks.iter().filter(|mark| **mark).count()
}

/// Sets the item at this index, if there is one.
pub fn put<T: Copy + Drop>(items: &mut [T], index: usize, item: T) {
    if index < items.len() {
        items[index] = item;
    }
}

/// Sets all items.
pub fn fill<T: Copy + Drop>(items: &mut [T], item: T) {
    for place in items.iter_mut() {
        *place = item;
    }
}

/// Copies the items, as far as both slices go.
pub fn copy<T: Copy + Drop>(from: &[T], into: &mut [T]) {
    let count = into.len().min(from.len());
    for place in 0..count {
        into[place] = from[place];
    }
}

/// Adds `from` to `into` item by item, as far as both slices go.
pub fn add(from: &[i64], into: &mut [i64]) {
    let count = into.len().min(from.len());
    for place in 0..count {
        into[place] = into[place].wrapping_add(from[place]);
    }
}

/// Gathers the items at these indices.
pub fn gather<T: Copy + Default + Drop>(items: &[T], places: &[usize], into: &mut [T]) {
    let count = into.len().min(places.len());
    for index in 0..count {
        into[index] = at(items, places[index]);
    }
}

/// The least sum of two items at one index, at most `FAR`.
pub fn least_sum(some: &[u32], others: &[u32]) -> u32 {
    let count = some.len().min(others.len());
    let mut least = FAR;
    for place in 0..count {
        least = least.min(some[place].wrapping_add(others[place]));
    }
    least
}

/// Sets each item to the sum of the two at its index.
pub fn set_sums(some: &[u32], others: &[u32], into: &mut [u32]) {
    let count = into.len().min(some.len()).min(others.len());
    for place in 0..count {
        into[place] = some[place].wrapping_add(others[place]);
    }
}

/// Raises each item by the other one, by at most `most`.
pub fn raise(items: &mut [i32], others: &[i32], most: i32) {
    let count = items.len().min(others.len());
    for place in 0..count {
        items[place] = items[place].wrapping_add(others[place].min(most));
    }
}

/// Sets each item to the lesser of it and the other one.
pub fn lower(items: &mut [i32], others: &[i32]) {
    let count = items.len().min(others.len());
    for place in 0..count {
        items[place] = items[place].min(others[place]);
    }
}

/// Sets each item to the lesser of it and its reduced length: base plus length less potential.
pub fn lower_reduced(items: &mut [i32], base: i32, lengths: &[i32], potentials: &[i32]) {
    let count = items.len().min(lengths.len()).min(potentials.len());
    for place in 0..count {
        let reduced = base
            .wrapping_add(lengths[place])
            .wrapping_sub(potentials[place]);
        items[place] = items[place].min(reduced);
    }
}

//! Lines added to a text.

ghost use Rattle.std.specs.Prelude.{◌≡◌, ◌≤◌, ◌++◌, map, flat_map, decimal, OnOk};
ghost use Rattle.std.specs.List.{join_with_byte};
ghost use Rattle.hub_make.specs.Numbers.{nodes};
ghost use Rattle.hub_make.specs.Texts.{number_words, coordinate_words, flow_words, line_text};

use crate::numbers::{x, y};
use crate::rows::flows_from;
use std::alloc::{AllocError, Global};

/// Adds a line for each node: its coordinates.
#[tactic(auto, using(crate::proofs::Joining::next_line))]
pub(crate) fn push_coordinates(text: &mut Vec<u8>, seed: u64, size: u64) -> Result<(), AllocError>
    requires seed { seed ≤ 1000000 }
    requires size { size ≤ 200 }
    ensures { OnOk result (text.new.items ≡ text.old.items ++ flat_map line_text (map (coordinate_words seed) (nodes size))) }
{
    for i in 0..size {
        push_line(text, &[x(seed, i + 1), y(seed, i + 1)])?;
    }
    Ok(())
}

/// Adds a line for each origin: the flows from it.
#[tactic(auto, using(crate::proofs::Joining::next_line))]
pub(crate) fn push_flows(
    alloc: Global,
    text: &mut Vec<u8>,
    seed: u64,
    size: u64,
) -> Result<(), AllocError>
    requires seed { seed ≤ 1000000 }
    requires size { size ≤ 200 }
    ensures { OnOk result (text.new.items ≡ text.old.items ++ flat_map line_text (map (flow_words seed size) (nodes size))) }
{
    for i in 0..size {
        let flows = flows_from(alloc, seed, size, i + 1)?;
        push_line(text, &flows)?;
    }
    Ok(())
}

/// Adds a line of numbers.
pub(crate) fn push_line(text: &mut Vec<u8>, numbers: &[u64]) -> Result<(), AllocError>
    ensures { OnOk result (text.new.items ≡ text.old.items ++ line_text (number_words numbers.now)) }
{
    push_numbers(text, numbers)?;
    text.push(b'\n')?;
    Ok(())
}

// Adds numbers with one space between them.
#[tactic(auto, using(crate::proofs::Joining::joined, crate::proofs::Joining::next_number, crate::proofs::Joining::no_number))]
fn push_numbers(text: &mut Vec<u8>, numbers: &[u64]) -> Result<(), AllocError>
    ensures { OnOk result (text.new.items ≡ text.old.items ++ join_with_byte 32 (number_words numbers.now)) }
{
    let Some((first, rest)) = numbers.split_first() else {
        return Ok(());
    };
    push_number(text, *first)?;
    for number in rest {
        text.push(b' ')?;
        push_number(text, *number)?;
    }
    Ok(())
}

fn push_number(text: &mut Vec<u8>, number: u64) -> Result<(), AllocError>
    ensures { OnOk result (text.new.items ≡ text.old.items ++ decimal number) }
{
    text.extend_from_slice(itoa::Buffer::new().format(number).as_bytes())
}

//! The words of a line put through a buffer.
ghost use Rattle.std.specs.Prelude.{◌∷◌, [], flat_map};
ghost use Rattle.hub_io.specs.Outside.{PutsThrough};
ghost use Rattle.cert_format.specs.Spaced.{spaced, words_text, words_line};

use dec_text::put_after_space;
use hub_io::{Buffer, Failed, Sink};

// Puts a line of a first word and numbers.
pub(crate) fn put_line<K: Sink>(
    keyword: &[u8],
    numbers: &[u128],
    buffer: &mut Buffer,
    sink: &mut K,
) -> Result<(), Failed>
    ensures { PutsThrough K.taken K.faults sink.old sink.new buffer.old buffer.new result
        (words_line keyword.now numbers.now) }
{
    put_words(keyword, numbers, buffer, sink)?;
    buffer.put(b"\n", sink)
}

// Puts the first word of a line, and the numbers behind it.
pub(crate) fn put_words<K: Sink>(
    keyword: &[u8],
    numbers: &[u128],
    buffer: &mut Buffer,
    sink: &mut K,
) -> Result<(), Failed>
    ensures { PutsThrough K.taken K.faults sink.old sink.new buffer.old buffer.new result
        (words_text keyword.now numbers.now) }
{
    buffer.put(keyword, sink)?;
    put_numbers(numbers, buffer, sink)
}

// Puts numbers, each behind a space.
pub(crate) fn put_numbers<K: Sink>(
    numbers: &[u128],
    buffer: &mut Buffer,
    sink: &mut K,
) -> Result<(), Failed>
    ensures { PutsThrough K.taken K.faults sink.old sink.new buffer.old buffer.new result
        (flat_map spaced numbers.now) }
{
    for number in numbers {
        put_number(*number, buffer, sink)?;
    }
    Ok(())
}

// Puts two numbers, each behind a space.
pub(crate) fn put_pair<K: Sink>(
    first: u128,
    second: u128,
    buffer: &mut Buffer,
    sink: &mut K,
) -> Result<(), Failed>
    ensures { PutsThrough K.taken K.faults sink.old sink.new buffer.old buffer.new result
        (flat_map spaced (first ∷ second ∷ [])) }
{
    put_number(first, buffer, sink)?;
    put_number(second, buffer, sink)
}

// Puts a number behind a space.
pub(crate) fn put_number<K: Sink>(
    number: u128,
    buffer: &mut Buffer,
    sink: &mut K,
) -> Result<(), Failed>
    ensures { PutsThrough K.taken K.faults sink.old sink.new buffer.old buffer.new result (spaced number) }
{
    put_after_space(number, buffer, sink)
}

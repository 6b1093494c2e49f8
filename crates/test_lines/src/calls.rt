//! Lines of a call with its arguments, a colon and a text: their parse, their spelling of bytes, and their output.

use percent_encoding::percent_decode;
use std::alloc::{AllocError, Global};
use std::num::ParseIntError;
use std::str::FromStr;

/// Why a line has no answer.
#[derive(Drop)]
pub enum Wrong {
    NoCase,
    OutOfMemory,
}

impl From<AllocError> for Wrong {
    fn from(_error: AllocError) -> Wrong {
        Wrong::OutOfMemory
    }
}

impl From<ParseIntError> for Wrong {
    fn from(_error: ParseIntError) -> Wrong {
        Wrong::NoCase
    }
}

/// The call of a line with its arguments, and the text after its colon.
pub fn call_and_text(line: &str) -> (&str, &str) {
    match line.split_once(':') {
        Some((call, text)) => (call, text.strip_prefix(' ').unwrap_or(text)),
        None => (line, ""),
    }
}

/// The bytes of a text, in which `%` and two hexadecimal digits spell any byte.
pub fn bytes_of(alloc: Global, text: &str) -> Result<Vec<u8>, AllocError> {
    let mut bytes = Vec::new(alloc);
    percent_decode(text.as_bytes()).append_to(&mut bytes)?;
    Ok(bytes)
}

/// The numbers of a word, separated by commas.
pub fn comma_list<N>(alloc: Global, word: &str) -> Result<Vec<N>, Wrong>
where
    N: FromStr<Err = ParseIntError> + Drop,
{
    let mut numbers = Vec::new(alloc);
    for number in word.split(',') {
        numbers.push(number.parse()?).map_err(AllocError::from)?;
    }
    Ok(numbers)
}

/// The output for a line: the line, followed by the result of its call. An empty line has none, and a line that begins
/// with `#` is printed alone.
pub fn told(
    alloc: Global,
    line: &str,
    answer: Result<String, Wrong>,
) -> Result<String, AllocError> {
    if line.is_empty() {
        return Ok(String::new(alloc));
    }
    if line.starts_with('#') {
        return format!(in alloc; "{line}\n");
    }
    match answer {
        Ok(answer) => format!(in alloc; "{line} -> {answer}\n"),
        Err(Wrong::NoCase) => format!(in alloc; "{line} -> no case\n"),
        Err(Wrong::OutOfMemory) => Err(AllocError),
    }
}

//! Lists of candidates.

ghost use Rattle.std.specs.Prelude.{◌≡◌, ◌∷◌, ◌<◌, [], length, IfOk, IfSome, MatchOption, option_map};
ghost use Rattle.std.specs.List.{slice_split};
ghost use Rattle.std.specs.Str.{IsUtf8};
ghost use Rattle.hub_words.specs.Values as spec;
ghost use Rattle.hub_words.specs.Values.{is_comma};

use crate::values::count;
use hub_model::{MOST_NODES, Nodes};
use memchr::memchr;
use std::alloc::{AllocError, Global};

/// The candidates, where they are given.
pub(crate) fn candidates(
    alloc: Global,
    given: Option<&str>,
) -> Result<Option<Option<Nodes>>, AllocError>
    ensures { IfOk result (λ nodes. nodes ≡ spec.candidates_asked (option_map (λ list. list.now) given.entry)) }
{
    let Some(list) = given else {
        return Ok(Some(None));
    };
    match nodes_listed(alloc, list)? {
        Some(nodes) => Ok(Some(Some(nodes))),
        None => Ok(None),
    }
}

/// The nodes, counted from 0, of a list of ascending numbers that are separated by single commas.
fn nodes_listed(alloc: Global, word: &str) -> Result<Option<Nodes>, AllocError>
    ensures { IfOk result (λ nodes. nodes ≡ spec.nodes_listed word.now) }
{
    let mut nodes = Vec::new(alloc);
    let mut rest = word;
    let mut least = 1;
    while let Some((part, later)) = cut(rest) {
        let Some(number) = count(part, least, MOST_NODES as u64) else {
            return Ok(None);
        };
        nodes.push(number as u32 - 1)?;
        least = number + 1;
        rest = later;
    }
    let Some(last) = count(rest, least, MOST_NODES as u64) else {
        return Ok(None);
    };
    nodes.push(last as u32 - 1)?;
    Ok(Some(Nodes::from_vec(nodes)))
}

/// The text before the first comma, and the text behind it.
fn cut(text: &str) -> Option<(&str, &str)>
    ensures parts { MatchOption result (slice_split is_comma text.now ≡ text.now ∷ []) (λ p. slice_split is_comma text.now ≡ p.0.now ∷ slice_split is_comma p.1.now) }
    ensures text { IfSome result (λ p. IsUtf8 p.1.now) }
    ensures shorter { IfSome result (λ p. length p.1.now < length text.now) }
{
    let at = memchr(b',', text.as_bytes())?;
    Some((&text[..at], &text[at + 1..]))
}

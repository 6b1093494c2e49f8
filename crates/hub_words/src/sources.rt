//! An instance as the arguments name it: layout, file, options and costs file.

ghost use Rattle.std.specs.Prelude.{◌≡◌, IfOk, IfSome, codes, option_map};
ghost use Rattle.hub_model.specs.Asked.{tail_of};
ghost use Rattle.hub_words.specs.Requests.{HasOptions, AreSources, AsksListed};
ghost use Rattle.hub_words.specs.Words as spec;
ghost use Rattle.hub_words.specs.Settings.{settings_of};
ghost use Rattle.hub_words.specs.Views.{layout_of, rows_found, source_of};

use crate::candidates::candidates;
use crate::requests::{Layout, Source};
use crate::settings::{Settings, given, read_settings, terms};
use crate::values::layout_named;
use clap::ArgMatches;
use hub_model::Tail;
use std::alloc::{AllocError, Global};

/// The instance that the words name.
#[tactic(auto, unfolding(crate::specs::Words::source_asked))]
pub(crate) fn source<'a>(
    alloc: Global,
    found: &ArgMatches<'a>,
) -> Result<Option<Source<'a>>, AllocError>
    ensures named { IfOk result (λ source. option_map source_of source ≡ spec.source_asked (rows_found found.now)) }
    ensures limits { IfOk result (λ source. IfSome source (λ s. HasOptions (source_of s))) }
    ensures sources { IfOk result (λ source. IfSome source (λ s. AreSources (source_of s))) }
    ensures listed { IfOk result (λ source. IfSome source (λ s. AsksListed (source_of s))) }
{
    let Some(layout) = layout(found) else {
        return Ok(None);
    };
    let Some(file) = given(found, "file") else {
        return Ok(None);
    };
    source_of_file(alloc, layout, file, found)
}

fn layout(found: &ArgMatches<'_>) -> Option<Layout>
    ensures { option_map layout_of result ≡ spec.layout_asked (rows_found found.now) }
{
    match given(found, "layout") {
        Some(name) => layout_named(name),
        None => None,
    }
}

/// The instance of a file of this layout.
fn source_of_file<'a>(
    alloc: Global,
    layout: Layout,
    file: &'a str,
    found: &ArgMatches<'a>,
) -> Result<Option<Source<'a>>, AllocError>
    ensures named { IfOk result (λ source. option_map source_of source ≡ spec.source_of_file (rows_found found.now) (layout_of layout) file.entry.now) }
    ensures limits { IfOk result (λ source. IfSome source (λ s. HasOptions (source_of s))) }
    ensures sources { IfOk result (λ source. IfSome source (λ s. AreSources (source_of s))) }
    ensures listed { IfOk result (λ source. IfSome source (λ s. AsksListed (source_of s))) }
{
    let Some(settings) = read_settings(layout, found) else {
        return Ok(None);
    };
    let costs = given(found, "costs");
    if !is_one_source(settings, costs) {
        return Ok(None);
    }
    let Some(candidates) = candidates(alloc, given(found, "candidates"))? else {
        return Ok(None);
    };
    Ok(Some(Source {
        layout,
        file,
        terms: terms(settings, candidates),
        costs,
    }))
}

/// Tells whether at most one of the file's tail, one cost for all nodes and a costs file gives the fixed costs.
fn is_one_source(settings: Settings, costs: Option<&str>) -> bool
    ensures { result ≡ spec.is_one_source (tail_of settings.tail) settings.fixed (option_map (λ name. name.now) costs.entry) }
{
    match settings.tail {
        Tail::Ignore => settings.fixed.is_none() || costs.is_none(),
        Tail::Fixed => settings.fixed.is_none() && costs.is_none(),
    }
}

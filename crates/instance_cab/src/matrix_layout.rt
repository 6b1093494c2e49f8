ghost use Rattle.std.specs.Prelude.{◌≡◌, IfOk, IfErr};
ghost use Rattle.file_spec.specs.Options.{cab_matrix, IsOptions};
ghost use Rattle.file_spec.specs.Contents.{IsContents};
ghost use Rattle.file_spec.specs.Files.{HasContents};
ghost use Rattle.instance_cab.specs.Matrices.{IsKind, first_kind, second_kind, contents_with};
ghost use Rattle.token_reader.specs.Refusals.{IsRefused};

use crate::contents::parts;
use crate::kinds::ListKind;
use crate::lists::numbers;
use hub_model::{Numbers, Order, Parts, Refusal, Terms};
use std::alloc::Global;
use token_reader::Reader;

/// Reads an instance file in the matrix layout: its contents, or the first fault in the order of tokens.
///
/// The file has the number of nodes n, then n * n flows and n * n distances row by row, and nothing more. The option
/// `order` says which matrix comes first. A flow is read in 10^-6 and a distance in 10^-3, both truncated. Distances
/// are divided by the option `divide` and rounded down. The distance from a node to itself is 0, whatever the file
/// says. All factors are 1.
pub fn read_matrix(alloc: Global, bytes: &[u8], terms: &Terms) -> Result<Parts, Refusal>
    ensures contents { IfOk result (λ parts. HasContents cab_matrix terms.now bytes.now parts) }
    ensures fault { IfErr result (IsRefused cab_matrix terms.now bytes.now) }
{
    let mut reader = Reader::over(bytes);
    let n = reader.size().map_err(Refusal::Fault)?;
    let (first_kind, second_kind) = kinds(terms);
    let first = numbers(&mut reader, alloc, &first_kind, n, n * n)?;
    let second = numbers(&mut reader, alloc, &second_kind, n, n * n)?;
    reader.end().map_err(Refusal::Fault)?;
    Ok(parts_of(terms, n, first, second))
}

// The kinds of the two matrices, in the order of the file.
fn kinds(terms: &Terms) -> (ListKind, ListKind)
    ensures first { result.0 ≡ first_kind terms.now.order terms.now.divide }
    ensures second { result.1 ≡ second_kind terms.now.order terms.now.divide }
    ensures kinds { IsKind result.0 × IsKind result.1 }
    ensures limits { IsOptions terms.now }
{
    let distance = ListKind::Distance {
        divide: terms.divisor(),
    };
    match terms.order {
        Order::FlowFirst => (ListKind::Flow, distance),
        Order::DistanceFirst => (distance, ListKind::Flow),
    }
}

// What the file gives, of its two matrices in the order of the file.
fn parts_of(terms: &Terms, n: u32, first: Numbers, second: Numbers) -> Parts
    requires { IsContents (contents_with terms.now.order n first second) }
    ensures { result ≡ contents_with terms.now.order n first second }
{
    match terms.order {
        Order::FlowFirst => parts(n, first, second),
        Order::DistanceFirst => parts(n, second, first),
    }
}

ghost use Rattle.std.specs.Prelude.{◌≡◌, IfOk, IfErr};
ghost use Rattle.file_spec.specs.Options.{australia_post, Options};
ghost use Rattle.file_spec.specs.Contents.{IsContents};
ghost use Rattle.file_spec.specs.Files.{HasContents};
ghost use Rattle.token_reader.specs.Refusals.{IsRefused};
ghost use Rattle.instance_ap.specs.Files.{IsFront, contents_with};

use crate::distances::distances;
use crate::points::Point;
use crate::reading::{read_factors, read_points, read_tail};
use hub_model::{Factors, MOST_FLOW, MOST_LISTED, Numbers, Parts, Refusal, Terms};
use std::alloc::Global;
use token_reader::Reader;

/// Reads an instance file in the layout of Australia Post: its contents, or the first fault in the order of tokens.
///
/// The file has the number of nodes n, n pairs of coordinates, n * n flows row by row, the listed number of hubs, and
/// the factors of collection, trunk and delivery. The option `tail` says what follows: fixed costs of the n nodes and
/// nothing more, or anything, which is ignored. Coordinates, flows and fixed costs are read in 10^-6 and factors in
/// 10^-3, all truncated. A distance is the Euclidean one, divided by the option `divide` and rounded down.
pub fn read_ap(alloc: Global, bytes: &[u8], terms: &Terms) -> Result<Parts, Refusal>
    ensures contents { IfOk result (λ parts. HasContents australia_post terms.now bytes.now parts) }
    ensures fault { IfErr result (IsRefused australia_post terms.now bytes.now) }
{
    let Preamble {
        n,
        points,
        flows,
        listed_p,
        factors,
        mut rest,
    } = read_front(alloc, bytes)?;
    let tail_costs = read_tail(alloc, &mut rest, terms.tail, n)?;
    let distances = distances(alloc, &points, terms.divisor())?;
    Ok(parts(n, flows, distances, listed_p, factors, tail_costs))
}

/// What a file gives in front of its tail, and its tokens from there on.
#[derive(Drop)]
struct Preamble<'a> {
    n: u32,
    points: Vec<Point>,
    flows: Numbers,
    listed_p: u32,
    factors: Factors,
    rest: Reader<'a>,
}

// Reads a file up to its tail.
fn read_front(alloc: Global, bytes: &[u8]) -> Result<Preamble<'_>, Refusal>
    ensures front { IfOk result (IsFront bytes.now) }
    ensures fault { (o : Options) → IfErr result (IsRefused australia_post o bytes.now) }
{
    let mut rest = Reader::over(bytes);
    let n = rest.size().map_err(Refusal::Fault)?;
    let points = read_points(alloc, &mut rest, n)?;
    let flows = rest.quantities(alloc, n * n, 6, MOST_FLOW)?;
    let listed_p = rest
        .quantity(0, MOST_LISTED as u64)
        .map_err(Refusal::Fault)? as u32;
    let factors = read_factors(&mut rest).map_err(Refusal::Fault)?;
    Ok(Preamble {
        n,
        points,
        flows,
        listed_p,
        factors,
        rest,
    })
}

// What the file gives.
fn parts(
    n: u32,
    flows: Numbers,
    distances: Numbers,
    listed_p: u32,
    factors: Factors,
    tail_costs: Option<Numbers>,
) -> Parts
    requires { IsContents (contents_with n flows distances listed_p factors tail_costs) }
    ensures { result ≡ contents_with n flows distances listed_p factors tail_costs }
{
    Parts {
        n,
        flows,
        distances,
        factors,
        listed_p: Some(listed_p),
        tail_costs,
    }
}

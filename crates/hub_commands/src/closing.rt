//! The search of `optimize`: branch and bound driven by dual ascent.

ghost use Rattle.std.specs.Prelude.{◌≡◌, IfSome, IfOk};
ghost use Rattle.hub_spec.specs.Problem.{IsProblem};
ghost use Rattle.hub_spec.specs.Plans.{IsHubSet};
ghost use Rattle.search_spec.specs.Costs.{IsAtMostOf};
ghost use Rattle.hub_words.specs.Requests.{IsGap, IsSearch};
ghost use Rattle.hub_words.specs.Views.{search_seen};
ghost use Rattle.hub_commands.specs.Solving.{IsClosed};

use ascent_search::{SearchTask, optimize_within};
use cert_format::Certificate;
use cut_pool::Found;
use dual_adviser::Adviser;
use hub_model::Instance;
use hub_words::Search;
use search_advice::Advice;
use std::alloc::{AllocError, Global};
use std::thread::Threads;
use warm_start::first_values;

/// Returns what `optimize` finds for the instance, where all candidates together are feasible for each commodity. `gap`
/// is the gap that it may leave, in thousandths of a per cent of the cost. Values and hubs of an older certificate are
/// a start and are not trusted. The finding costs at most what its hubs cost, where these are a wanted hub set.
pub fn close<R: Threads + Sync>(
    rt: &R,
    alloc: Global,
    instance: &Instance,
    asked: Search,
    gap: u32,
    older: Option<Certificate>,
) -> Result<Found, AllocError>
    requires problem { IsProblem instance.now }
    requires asked { IsSearch (search_seen asked) }
    requires gap { IsGap gap }
    requires lacks_none { IsHubSet instance.now instance.now.candidates }
    ensures closed { IfOk result (IsClosed instance.now asked.nodes gap) }
    ensures given { IfOk result (λ found. IfSome older (λ k. IsAtMostOf instance.now k.proof.plan.hubs found.cost)) }
{
    let mut adviser = Adviser::new(alloc, instance, asked.workers)?;
    let first = match older {
        Some(certificate) => begin_with(alloc, instance, &certificate, &mut adviser)?,
        None => Vec::new(alloc),
    };
    let task = SearchTask {
        instance,
        nodes: asked.nodes,
        gap,
        workers: asked.workers,
        first: &first,
    };
    optimize_within(rt, alloc, &task, adviser)
}

/// Starts the heuristic from the values of the older certificate, and returns the hubs of that.
fn begin_with(
    alloc: Global,
    instance: &Instance,
    older: &Certificate,
    adviser: &mut Adviser,
) -> Result<Vec<u32>, AllocError>
    ensures { IfOk result (λ hubs. hubs.items ≡ older.now.proof.plan.hubs) }
{
    let values = first_values(alloc, instance, older.cuts(), adviser.unit())?;
    adviser.begin_with(&values);
    older.hubs().to_vec(alloc)
}

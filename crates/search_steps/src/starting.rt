//! The start of a search.

ghost use Rattle.std.specs.Prelude.{◌≡◌, ◌<◌, [], length, IfOk, OnOk};
ghost use Rattle.hub_spec.specs.Plans.{IsHubSet};
ghost use Rattle.search_spec.specs.Steps.{begun};
ghost use Rattle.search_spec.specs.Choices.{begun_for};
ghost use Rattle.search_spec.specs.Costs.{first_hubs};
ghost use Rattle.search_steps.specs.Kinds.{parts_for};
ghost use Rattle.cut_pool.specs.Findings.{lines_of};
ghost use Rattle.search_steps.specs.Progressing.{state_of, IsGoing};

use crate::Separator;
use crate::progress::Progress;
use crate::separating::add_cut;
use cut_pool::Pool;
use hub_model::{HubSet, outside};
use p_hub::first_hubs;
use search_core::Task;
use std::alloc::{AllocError, Global};

/// The first state of a search. Its pool has the Benders cut from the set of all candidates. Where fewer hubs are
/// wanted, exactly p, it also has the cut from the first p candidates. The last of these sets is the first incumbent.
pub fn begin<S: Separator>(
    alloc: Global,
    task: &Task,
    separator: &mut S,
) -> Result<Progress, AllocError>
    requires lacks_none { IsHubSet task.now.instance.now task.now.instance.now.candidates }
    requires ready { S.ready separator.old }
    ensures ready { S.ready separator.new }
    ensures begun { let p = task.now.instance.now in
        IfOk result (λ s. state_of p s ≡ begun_for p (parts_for S.kind p) p.wanted) }
    ensures no_line { IfOk result (λ s. lines_of s.lines.items ≡ []) }
    ensures going { IfOk result (IsGoing task.now) }
{
    let mut progress = begin_with_all(alloc, task, separator)?;
    let hubs = first_hubs(task.instance);
    if hubs.len() < task.instance.candidates().len() {
        take_first(alloc, task, &mut progress, separator, hubs)?;
    }
    Ok(progress)
}

// The state with the Benders cut from the set of all candidates, which is the incumbent.
fn begin_with_all<S: Separator>(
    alloc: Global,
    task: &Task,
    separator: &mut S,
) -> Result<Progress, AllocError>
    requires lacks_none { IsHubSet task.now.instance.now task.now.instance.now.candidates }
    requires ready { S.ready separator.old }
    ensures ready { S.ready separator.new }
    ensures begun { let p = task.now.instance.now in IfOk result (λ s. state_of p s ≡ begun p (parts_for S.kind p)) }
    ensures no_line { IfOk result (λ s. lines_of s.lines.items ≡ []) }
    ensures going { IfOk result (IsGoing task.now) }
{
    let candidates = task.instance.candidates();
    let hubs = HubSet::of(alloc, candidates)?;
    let set = hubs.copy(alloc)?;
    let order = Vec::new(alloc);
    let mut pool = Pool::new(alloc)?;
    let cost = add_cut(alloc, task.instance, &mut pool, separator, set, order)?;
    Ok(Progress {
        pool,
        lines: Vec::new(alloc),
        hubs,
        cost,
        made: 1,
        stop: None,
    })
}

// Adds the Benders cut from the first p candidates, where exactly p hubs are wanted. They become the incumbent whatever
// they cost, since the set of all candidates has too many hubs.
fn take_first<S: Separator>(
    alloc: Global,
    task: &Task,
    progress: &mut Progress,
    separator: &mut S,
    hubs: &[u32],
) -> Result<(), AllocError>
    requires lacks_none { IsHubSet task.now.instance.now task.now.instance.now.candidates }
    requires ready { S.ready separator.old }
    requires begun { let p = task.now.instance.now in state_of p progress.old ≡ begun p (parts_for S.kind p) }
    requires going { IsGoing task.now progress.old }
    requires first { hubs.now ≡ first_hubs task.now.instance.now }
    requires fewer { length hubs.now < length task.now.instance.now.candidates }
    ensures ready { S.ready separator.new }
    ensures begun { let p = task.now.instance.now in
        OnOk result (state_of p progress.new ≡ begun_for p (parts_for S.kind p) p.wanted) }
    ensures lines { progress.new.lines ≡ progress.old.lines }
    ensures going { OnOk result (IsGoing task.now progress.new) }
{
    let hubs = HubSet::of(alloc, hubs)?;
    let set = hubs.copy(alloc)?;
    let order = outside(alloc, task.instance, &set)?;
    progress.cost = add_cut(
        alloc,
        task.instance,
        &mut progress.pool,
        separator,
        set,
        order,
    )?;
    progress.hubs = hubs;
    Ok(())
}

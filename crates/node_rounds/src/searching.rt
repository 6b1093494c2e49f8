//! Rounds, and the whole search.

ghost use Rattle.std.specs.Prelude.{◌≡◌, ℕ, ◌+◌, ◌<◌, ◌≤◌, ◌^◌, None, [], ◌∷◌, ◌++◌, min, length, All, IfOk, OnOk};
ghost use Rattle.hub_spec.specs.Problem.{IsProblem};
ghost use Rattle.hub_spec.specs.Plans.{IsHubSet, plan_cost, NoPlanBelow};
ghost use Rattle.hub_spec.specs.Trees.{root, preorder};
ghost use Rattle.search_spec.specs.Laws.{IsStart};
ghost use Rattle.search_spec.specs.Costs.{IsAtMostOf, first_hubs};
ghost use Rattle.search_spec.specs.Findings.{certificate_of, AreWithin, IsSpent, IsEnough};
ghost use Rattle.search_steps.specs.Advising.{parts_of};
ghost use Rattle.search_steps.specs.Kinds.{minimal};
ghost use Rattle.cut_pool.specs.Findings.{lines_of, proof_of, AreRemade, IsProved};
ghost use Rattle.search_steps.specs.Progressing.{state_of, IsGoing};
ghost use Rattle.search_steps.specs.Findings.{IsFound};
ghost use Rattle.search_spec.specs.Places.{open_at};
ghost use Rattle.search_spec.specs.Turns.{fresh, at_root, next_round, most_turns};
ghost use Rattle.search_spec.specs.Lasting.{searched_by_rounds};
ghost use Rattle.node_rounds.specs.Outcomes.{IsPendingOf, IsTurnOf, IsOutcomeOf};
ghost use Rattle.node_rounds.specs.Fronts.{places_of, IsFront};
ghost use Rattle.node_rounds.specs.Left.{left_of, AreMatched, lines_first, standing_of, IsLeft, AreTurns};
ghost use Rattle.node_rounds.specs.Findings.{found_by_rounds};
ghost use Rattle.node_rounds.specs.Searchers.{first_state, IsWholeSearch, IsTurnerAt};

use crate::closing::close_up;
use crate::fronts::{RoundState, add_line};
use crate::left::{Left, TreeSlot, put_back, settle};
use crate::outcomes::{Outcome, Pending};
use crate::searchers::side_by_side;
use crate::taking::take;
use crate::turners::{RoundWorkers, Turner};
use cut_pool::Found;
use hub_io::Gate;
use hub_model::{Branch, Instance};
use search_core::Task;
use search_steps::{Progress, Separator, begin, finish};
use std::alloc::{AllocError, Global};
use std::thread::Threads;

// From how many nodes of the instance on a turn takes longer than threads take to start.
const LARGE: u32 = 50;

// The size of the block that is allocated before the first round, in bytes.
const KEPT_BLOCK: usize = 16 << 20;

/// Branch and bound by rounds, for any number of hubs. The finding has a plan with its cost, a lower bound, and the
/// cuts and the tree that prove it.
///
/// `nodes` is the most nodes of the tree, the root included, or `None` for no limit. All candidates together must be
/// feasible for every commodity. The separator computes cuts of minimal duals. The plan costs at most as much as all
/// candidates as hubs. The search stops early only where two more nodes pass the limit. Otherwise cost and bound are
/// equal and the plan is optimal.
///
/// There are 1 to 64 workers, each in its own thread where one can be made. A worker passes the gate before each node
/// that it draws. The finding depends neither on the separator, the number of workers, their schedule, nor the gate.
///
/// `AllocError` means that memory ran out, or that a limit of certificates was reached: 67,108,864 cuts or 268,435,456
/// tree lines.
pub fn search_rounds<R: Threads + Sync, S: Separator, G: Gate>(
    rt: &R,
    alloc: Global,
    instance: &Instance,
    nodes: Option<u64>,
    separator: &mut S,
    workers: u32,
    gate: &G,
) -> Result<Found, AllocError>
    requires plain { instance.now.wanted ≡ None }
    requires lacks_none { IsHubSet instance.now instance.now.candidates }
    requires minimal { S.kind ≡ minimal }
    requires ready { S.ready separator.old }
    requires workers { (1 ≤ workers) × (workers ≤ 64) }
    ensures ready { S.ready separator.new }
    ensures found { IfOk result (IsFound instance.now (found_by_rounds instance.now nodes)) }
    ensures certificate { let g = found_by_rounds instance.now nodes in
        IfOk result (λ found. (v : ℕ) → proof_of v instance.now found g.tree ≡ certificate_of instance.now v g) }
    ensures proved { IfOk result (IsProved instance.now) }
    ensures remade { IfOk result AreRemade }
    ensures paid { IfOk result (λ found. found.cost ≡ plan_cost instance.now found.plan) }
    ensures below { IfOk result (λ found. NoPlanBelow instance.now found.bound) }
    ensures within { IfOk result (λ found. found.bound ≤ found.cost) }
    ensures at_most { IfOk result (λ found. IsAtMostOf instance.now (first_hubs instance.now) found.cost) }
    ensures most { IfOk result (λ found. length found.tree.items + 1 ≤ 2 ^ (length instance.now.candidates + 1)) }
    ensures allowed { IfOk result (λ found. AreWithin nodes (length found.tree.items)) }
    ensures spent { IfOk result (λ found. found.bound < found.cost → IsSpent nodes (length found.tree.items)) }
    ensures enough { IsEnough (2 ^ (length instance.now.candidates + 1)) nodes → IfOk result (λ found. found.bound ≡ found.cost) }
{
    keep_blocks(alloc);
    let task = Task { instance, nodes };
    let workers = RoundWorkers {
        rt,
        count: workers,
        gate,
    };
    let progress = searched(&workers, alloc, &task, separator)?;
    finish(alloc, &task, progress)
}

// All that the search finds: by searchers side by side where turns are short, else by workers that meet for each round.
fn searched<R: Threads + Sync, S: Separator, G: Gate>(
    workers: &RoundWorkers<R, G>,
    alloc: Global,
    task: &Task,
    separator: &mut S,
) -> Result<Progress, AllocError>
    requires plain { task.now.instance.now.wanted ≡ None }
    requires lacks_none { IsHubSet task.now.instance.now task.now.instance.now.candidates }
    requires minimal { S.kind ≡ minimal }
    requires ready { S.ready separator.old }
    requires workers { (1 ≤ workers.now.count) × (workers.now.count ≤ 64) }
    ensures ready { S.ready separator.new }
    ensures found { IfOk result (IsWholeSearch task.now) }
{
    if workers.count > 1 && task.instance.size() < LARGE {
        return side_by_side(workers, alloc, task);
    }
    search_by(workers, Turner::ByCrew, alloc, task, separator)
}

// Allocates a large block and frees it at once. Each node evaluation allocates and frees a few blocks of many
// kilobytes. The system's allocator returns such blocks to the system, which has to clear them again each time. Once a
// larger block has been freed, the allocator keeps them.
fn keep_blocks(alloc: Global) {
    let _ = Vec::<u8>::with_capacity(alloc, KEPT_BLOCK);
}

/// All that the search finds, where this turner evaluates the nodes of its rounds.
pub(crate) fn search_by<R: Threads + Sync, G: Gate, S: Separator>(
    workers: &RoundWorkers<R, G>,
    mut turner: Turner,
    alloc: Global,
    task: &Task,
    separator: &mut S,
) -> Result<Progress, AllocError>
    requires plain { task.now.instance.now.wanted ≡ None }
    requires lacks_none { IsHubSet task.now.instance.now task.now.instance.now.candidates }
    requires minimal { S.kind ≡ minimal }
    requires ready { S.ready separator.old }
    requires workers { (1 ≤ workers.now.count) × (workers.now.count ≤ 64) }
    requires turner { let p = task.now.instance.now in IsTurnerAt turner task.now (at_root p (first_state p)) }
    ensures ready { S.ready separator.new }
    ensures found { IfOk result (IsWholeSearch task.now) }
{
    let first = begin(alloc, task, separator)?;
    let progress = all_rounds(workers, &mut turner, alloc, task, separator, first)?;
    Ok(progress)
}

// All rounds of the search that goes on from here, with the root still to be handled, and the lines of its tree.
fn all_rounds<R: Threads + Sync, G: Gate, S: Separator>(
    workers: &RoundWorkers<R, G>,
    turner: &mut Turner,
    alloc: Global,
    task: &Task,
    separator: &mut S,
    progress: Progress,
) -> Result<Progress, AllocError>
    requires plain { task.now.instance.now.wanted ≡ None }
    requires lacks_none { IsHubSet task.now.instance.now task.now.instance.now.candidates }
    requires minimal { S.kind ≡ minimal }
    requires ready { S.ready separator.old }
    requires going { IsGoing task.now progress }
    requires start { IsStart task.now.instance.now (state_of task.now.instance.now progress) }
    requires workers { (1 ≤ workers.now.count) × (workers.now.count ≤ 64) }
    requires turner { let p = task.now.instance.now in IsTurnerAt turner.old task.now (at_root p (state_of p progress)) }
    requires no_line { lines_of progress.lines.items ≡ [] }
    ensures ready { S.ready separator.new }
    ensures state { let p = task.now.instance.now in
        let g = searched_by_rounds p (parts_of p) task.now.nodes (state_of p progress) in IfOk result (λ s. state_of p s ≡ g.state) }
    ensures lines { let p = task.now.instance.now in
        let g = searched_by_rounds p (parts_of p) task.now.nodes (state_of p progress) in
        IfOk result (λ s. lines_of s.lines.items ≡ preorder g.tree) }
    ensures going { IfOk result (IsGoing task.now) }
{
    let mut left = at_root(alloc, task.instance)?;
    let mut front = RoundState {
        progress,
        places: Vec::new(alloc),
    };
    while !left.nodes.is_empty() && front.progress.stop.is_none() {
        one_round(
            workers, turner, alloc, task, separator, &mut left, &mut front,
        )?;
    }
    let RoundState {
        mut progress,
        places: _,
    } = front;
    close_up(alloc, task, left, &mut progress)?;
    Ok(progress)
}

// The root alone is left, with no weights.
fn at_root(alloc: Global, instance: &Instance) -> Result<Left, AllocError>
    requires problem { IsProblem instance.now }
    ensures root { IfOk result (λ left. left_of left ≡ open_at (fresh (root instance.now) []) ∷ []) }
    ensures nodes { IfOk result (λ left. All (IsPendingOf instance.now []) left.nodes.items) }
    ensures matched { IfOk result (λ left. AreMatched left.marks.items left.nodes.items) }
{
    let node = Pending {
        branch: Branch::root(alloc, instance)?,
        weights: Vec::new(alloc),
        waits: 0,
    };
    let mut marks = Vec::new(alloc);
    marks.push(TreeSlot::Node)?;
    let mut nodes = Vec::new(alloc);
    nodes.push(node)?;
    Ok(Left { marks, nodes })
}

// One round: the first nodes have their turns, and what comes of each is put in its place.
fn one_round<R: Threads + Sync, G: Gate, S: Separator>(
    workers: &RoundWorkers<R, G>,
    turner: &mut Turner,
    alloc: Global,
    task: &Task,
    separator: &mut S,
    left: &mut Left,
    front: &mut RoundState,
) -> Result<(), AllocError>
    requires plain { task.now.instance.now.wanted ≡ None }
    requires minimal { S.kind ≡ minimal }
    requires ready { S.ready separator.old }
    requires left { IsLeft task.now front.old.progress left.old }
    requires workers { (1 ≤ workers.now.count) × (workers.now.count ≤ 64) }
    requires turner { IsTurnerAt turner.old task.now (standing_of task.now.instance.now front.old.progress left.old) }
    requires no_place { front.old.places.items ≡ [] }
    ensures ready { S.ready separator.new }
    ensures turner { OnOk result (IsTurnerAt turner.new task.now (standing_of task.now.instance.now front.new.progress left.new)) }
    ensures round { let p = task.now.instance.now in OnOk result (standing_of p front.new.progress left.new
        ≡ next_round p (parts_of p) task.now.nodes (standing_of p front.old.progress left.old)) }
    ensures left { OnOk result (IsLeft task.now front.new.progress left.new) }
    ensures no_place { OnOk result (front.new.places.items ≡ []) }
{
    let outcomes = turner.turns(workers, alloc, task, &front.progress, left)?;
    take_round(alloc, task, separator, left, front, outcomes)?;
    Ok(())
}

// Takes the outcomes of a round, and puts what comes of each in its place.
fn take_round<S: Separator>(
    alloc: Global,
    task: &Task,
    separator: &mut S,
    left: &mut Left,
    front: &mut RoundState,
    outcomes: Vec<Outcome>,
) -> Result<(), AllocError>
    requires plain { task.now.instance.now.wanted ≡ None }
    requires minimal { S.kind ≡ minimal }
    requires ready { S.ready separator.old }
    requires left { IsLeft task.now front.old.progress left.old }
    requires no_place { front.old.places.items ≡ [] }
    requires turns { AreTurns task.now.instance.now front.old.progress left.old.nodes.items outcomes.items }
    requires first { length outcomes.items ≡ min (length left.old.nodes.items) most_turns }
    ensures ready { S.ready separator.new }
    ensures round { let p = task.now.instance.now in OnOk result (standing_of p front.new.progress left.new
        ≡ next_round p (parts_of p) task.now.nodes (standing_of p front.old.progress left.old)) }
    ensures left { OnOk result (IsLeft task.now front.new.progress left.new) }
    ensures no_place { OnOk result (front.new.places.items ≡ []) }
{
    take_all(alloc, task, separator, left, front, outcomes)?;
    put_back(left, &mut front.places)?;
    settle(left, &mut front.progress.lines)
}

// Takes the outcomes of the first nodes, the last outcome first, as long as the search is not stopped.
fn take_all<S: Separator>(
    alloc: Global,
    task: &Task,
    separator: &mut S,
    left: &mut Left,
    front: &mut RoundState,
    mut outcomes: Vec<Outcome>,
) -> Result<(), AllocError>
    requires plain { task.now.instance.now.wanted ≡ None }
    requires minimal { S.kind ≡ minimal }
    requires ready { S.ready separator.old }
    requires left { IsLeft task.now front.old.progress left.old }
    requires no_place { front.old.places.items ≡ [] }
    requires turns { AreTurns task.now.instance.now front.old.progress left.old.nodes.items outcomes.items }
    requires first { length outcomes.items ≡ min (length left.old.nodes.items) most_turns }
    ensures ready { S.ready separator.new }
    ensures round { let p = task.now.instance.now in OnOk result (record {
      state = state_of p front.new.progress;
      places = lines_first front.new.progress.lines.items (places_of front.new.places.items ++ left_of left.new);
    } ≡ next_round p (parts_of p) task.now.nodes (standing_of p front.old.progress left.old)) }
    ensures left { OnOk result (IsLeft task.now front.new.progress left.new) }
    ensures front { OnOk result (IsFront task.now front.new) }
{
    while !outcomes.is_empty() && front.progress.stop.is_none() {
        match left.marks.pop() {
            Some(TreeSlot::Line(line)) => add_line(task, front, line)?,
            Some(TreeSlot::Node) => match (left.nodes.pop(), outcomes.pop()) {
                (Some(node), Some(outcome)) => {
                    take(alloc, task, separator, front, node, outcome)?
                }
                _ => unreachable!(),
            },
            None => unreachable!(),
        }
    }
    Ok(())
}

//! The searches by a rule, for an instance and for the made-up one of `demo`.

ghost use Rattle.std.specs.Prelude.{◌≡◌, ◌≤◌, IfOk};
ghost use denote.Param.Send.{IsSync};
ghost use Rattle.hub_spec.specs.Problem.{IsProblem};
ghost use Rattle.hub_spec.specs.Plans.{IsHubSet};
ghost use Rattle.hub_spec.specs.Separation.{IsOrder};
ghost use Rattle.cut_pool.specs.Entries.{entry_of};
ghost use Rattle.search_steps.specs.Pools.{IsSumsOf};
ghost use Rattle.search_steps.specs.Kinds.{minimal};
ghost use Rattle.hub_make.specs.Contents.{made_problem};
ghost use Rattle.hub_words.specs.Requests.{IsMaking, IsSearch, node_by_node};
ghost use Rattle.hub_words.specs.Views.{making_seen, search_seen};
ghost use Rattle.hub_commands.specs.Methods.{cold};
ghost use Rattle.hub_commands.specs.Solving.{IsSearched, MayGo, course_seen};

use branch_tree::{search, search_from};
use cut_pool::{CutSums, Found};
use hub_io::Gate;
use hub_make::made_instance;
use hub_model::{HubSet, Instance};
use hub_words::{Making, Search, SearchRule};
use node_rounds::search_rounds;
use par_separate::{Crew, separate_sums, workers_for};
use search_core::Start;
use search_steps::{Coring, Counted, Plain, Rule, Separator, Solo};
use std::alloc::{AllocError, Global};
use std::thread::Threads;

/// The course of a search by a rule.
#[derive(Drop)]
pub enum Course {
    /// This rule, from its beginning.
    Cold(SearchRule),
    /// Node by node, from this warm start.
    Warm(Start),
}

/// Returns what the search rule finds for a made-up instance.
pub fn demonstrate<R: Threads + Sync, G: Gate>(
    rt: &R,
    alloc: Global,
    making: Making,
    asked: Search,
    gate: &G,
) -> Result<Found, AllocError>
    requires making { IsMaking (making_seen making) }
    requires asked { IsSearch (search_seen asked) }
    ensures { IfOk result (IsSearched (made_problem making.seed making.size) asked.nodes (cold node_by_node)) }
{
    let instance = made_instance(alloc, making.seed, making.size)?;
    find(
        rt,
        alloc,
        &instance,
        asked,
        Course::Cold(SearchRule::NodeByNode),
        gate,
    )
}

/// Returns what the search rule finds in this course, for exactly p hubs if p is given. All candidates together must be
/// feasible for each commodity.
pub fn find<R: Threads + Sync, G: Gate>(
    rt: &R,
    alloc: Global,
    instance: &Instance,
    asked: Search,
    course: Course,
    gate: &G,
) -> Result<Found, AllocError>
    requires asked { IsSearch (search_seen asked) }
    requires lacks_none { IsHubSet instance.now instance.now.candidates }
    requires may_go { MayGo instance.now (course_seen course) }
    ensures { IfOk result (IsSearched instance.now asked.nodes (course_seen course)) }
{
    match instance.wanted() {
        Some(hubs) => {
            let rule = Counted { hubs };
            let found = find_by(rt, alloc, &rule, instance, asked, course, gate);
            let Counted { hubs: _ } = rule;
            found
        }
        None => find_by(rt, alloc, &Plain, instance, asked, course, gate),
    }
}

/// Returns what the rule finds. Several workers share the separation of a hub set, where more than one is allowed and
/// the instance is large enough.
fn find_by<R: Threads + Sync, Q: Rule, G: Gate>(
    rt: &R,
    alloc: Global,
    rule: &Q,
    instance: &Instance,
    asked: Search,
    course: Course,
    gate: &G,
) -> Result<Found, AllocError>
    requires serves { Q.serves rule.now instance.now }
    requires asked { IsSearch (search_seen asked) }
    requires lacks_none { IsHubSet instance.now instance.now.candidates }
    requires may_go { MayGo instance.now (course_seen course) }
    ensures { IfOk result (IsSearched instance.now asked.nodes (course_seen course)) }
{
    let workers = workers_for(instance.size(), asked.workers);
    if workers == 1 {
        let solo = Solo::new(alloc, instance)?;
        return find_with(rt, alloc, rule, instance, asked, course, solo, gate);
    }
    let cut = |alloc: Global, i: &Instance, set: HubSet, order: &[u32]| -> Result<
        CutSums,
        AllocError,
    >
        requires { IsSync R.row × IsSync G.row × IsHubSet i.now set × IsOrder i.now set order.now × (1 ≤ workers) × (workers ≤ 64) }
        ensures { IfOk result (λ c. (c.hubs ≡ set) × IsSumsOf i.entry.now (entry_of c order.entry.now)) }
    { separate_sums(rt, alloc, i, set, order, workers, gate) };
    find_with(rt, alloc, rule, instance, asked, course, Crew { cut }, gate)
}

/// Returns what the rule finds with this separator. By rounds, several workers share the node evaluations of each
/// round. With Pareto-optimal cuts a hub set without one gets its minimal cut.
fn find_with<R: Threads + Sync, Q: Rule, S: Separator + Drop, G: Gate>(
    rt: &R,
    alloc: Global,
    rule: &Q,
    instance: &Instance,
    asked: Search,
    course: Course,
    mut separator: S,
    gate: &G,
) -> Result<Found, AllocError>
    requires serves { Q.serves rule.now instance.now }
    requires asked { IsSearch (search_seen asked) }
    requires problem { IsProblem instance.now }
    requires lacks_none { IsHubSet instance.now instance.now.candidates }
    requires may_go { MayGo instance.now (course_seen course) }
    requires ready { S.ready separator }
    requires minimal_duals { S.kind ≡ minimal }
    ensures { IfOk result (IsSearched instance.now asked.nodes (course_seen course)) }
{
    let nodes = asked.nodes;
    match course {
        Course::Cold(asked_rule) => match asked_rule {
            SearchRule::NodeByNode => search(alloc, rule, instance, nodes, &mut separator),
            SearchRule::ByCoreCuts => {
                let mut coring = Coring { others: separator };
                search(alloc, rule, instance, nodes, &mut coring)
            }
            SearchRule::ByRounds => {
                let workers = asked.workers;
                search_rounds(rt, alloc, instance, nodes, &mut separator, workers, gate)
            }
        },
        Course::Warm(start) => search_from(alloc, rule, instance, nodes, &mut separator, start),
    }
}

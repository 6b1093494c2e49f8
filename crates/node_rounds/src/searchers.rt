//! Searchers side by side.
//!
//! Each runs the whole search, and all find the same. Node evaluations take nearly all of its time. So one searcher
//! alone computes each of them and sends it to the others (`Partner` of `desks`). Evaluations are numbered from the
//! first of the search on. A searcher draws the next one when it is done with one, within a round in the order of
//! `draws`. Threads are made once, and none sleeps.

ghost use Rattle.std.specs.Prelude.{◌≡◌, ◌+◌, ◌<◌, ◌≤◌, None, length, All, IfOk, IfSome, OnOk};
ghost use Rattle.std.specs.List.{AllZip, HoldsAt};
ghost use denote.Param.Send.{IsSync};
ghost use Rattle.hub_spec.specs.Plans.{IsHubSet};
ghost use Rattle.search_steps.specs.Advising.{parts_of};
ghost use Rattle.search_spec.specs.Turns.{most_turns, next_round};
ghost use Rattle.node_rounds.specs.Outcomes.{IsTurnOf, IsOutcomeOf};
ghost use Rattle.node_rounds.specs.Left.{standing_of, IsLeft, turned_of};
ghost use Rattle.node_rounds.specs.Searchers.{IsTurnBy, IsSearcher, IsWholeSearch};

use crate::draws::drawn_at;
use crate::left::Left;
use crate::outcomes::{Outcome, Pending};
use crate::posts::{Worked, into_outcome};
use crate::searching::search_by;
use crate::turners::{MOST_TURNS, RoundWorkers, Turner, turned};
use crate::turning::turn_ahead;
use desks::{Desk, Partner, Tickets, desks};
use hub_io::Gate;
use search_core::Task;
use search_steps::{Progress, Solo};
use std::alloc::{AllocError, Global};
use std::thread::{Threads, join};

/// One of several searchers.
#[derive(Drop)]
pub(crate) struct Searcher<'s, 'a> {
    // Its number, from 0.
    pub(crate) number: u32,
    pub(crate) partner: Partner<'s, Task<'a>, Worked>,
    pub(crate) solo: Solo,
    // How many rounds are over, and how many turns they had.
    pub(crate) round: u64,
    pub(crate) past: u64,
}

// The evaluation of the node at this place of the round.
fn turn_at(
    alloc: Global,
    task: &Task,
    progress: &Progress,
    left: &Left,
    place: u32,
    solo: &mut Solo,
) -> Result<Outcome, AllocError>
    requires plain { task.now.instance.now.wanted ≡ None }
    requires left { IsLeft task.now progress.now left.now }
    requires place { place < length (turned_of left.now.nodes.items) }
    ensures { IfOk result (λ o. HoldsAt (λ x. IsTurnBy task.now.instance.now progress.now x o) (turned_of left.now.nodes.items) place) }
{
    let node = &turned(left)[place as usize];
    turn_ahead(
        alloc,
        task.instance,
        node,
        &progress.pool,
        progress.cost,
        solo,
    )
}

impl<'s, 'a> Searcher<'s, 'a> {
    // The place of the turn that it has drawn, if that is one of this round's, in which these nodes have theirs.
    fn drawn_place(&self, nodes: &[Pending]) -> Option<u32>
        requires few { length nodes.now ≤ most_turns }
        ensures { IfSome result (λ place. place < length nodes.now) }
    {
        let ticket = self.partner.ticket();
        if ticket < self.past {
            return None;
        }
        let draw = ticket - self.past;
        if draw < nodes.len() as u64 {
            Some(drawn_at(nodes, draw as u32))
        } else {
            None
        }
    }

    // The number in the search of the turn at this place of the round.
    fn turn_number(&self, place: u32) -> u64 {
        self.past.wrapping_add(place as u64)
    }

    // Evaluates the nodes that it draws in this round, and sends the outcomes.
    fn work<G: Gate>(
        &mut self,
        gate: &G,
        alloc: Global,
        task: &Task,
        progress: &Progress,
        left: &Left,
    ) -> Result<(), AllocError>
        requires plain { task.now.instance.now.wanted ≡ None }
        requires left { IsLeft task.now progress.now left.now }
        requires ready { IsSearcher self.old task.now (standing_of task.now.instance.now progress.now left.now) }
        ensures { OnOk result (IsSearcher self.new task.now (standing_of task.now.instance.now progress.now left.now)) }
    {
        let turns = turned(left).len();
        for _ in 0..turns {
            let Some(place) = self.drawn_place(turned(left)) else {
                break;
            };
            gate.at(self.number, place);
            let outcome = turn_at(alloc, task, progress, left, place, &mut self.solo)?;
            let worked = Worked {
                turn: self.turn_number(place),
                round: self.round,
                place,
                outcome,
            };
            self.partner.tell(alloc, worked)?;
        }
        Ok(())
    }

    // The outcome of the node at this place.
    fn outcome(
        &mut self,
        alloc: Global,
        task: &Task,
        progress: &Progress,
        left: &Left,
        place: u32,
    ) -> Result<Outcome, AllocError>
        requires plain { task.now.instance.now.wanted ≡ None }
        requires left { IsLeft task.now progress.now left.now }
        requires place { place < length (turned_of left.now.nodes.items) }
        requires ready { IsSearcher self.old task.now (standing_of task.now.instance.now progress.now left.now) }
        ensures turn { IfOk result (λ o. HoldsAt (λ x. IsTurnBy task.now.instance.now progress.now x o) (turned_of left.now.nodes.items) place) }
        ensures ready { OnOk result (IsSearcher self.new task.now (standing_of task.now.instance.now progress.now left.now)) }
    {
        let turn = self.turn_number(place);
        if let Some(worked) = self.partner.awaited(turn)? {
            if worked.round == self.round && worked.place == place {
                return into_outcome(alloc, worked);
            }
        }
        turn_at(alloc, task, progress, left, place, &mut self.solo)
    }

    // One round more is over, which had so many turns.
    fn pass(&mut self, turns: usize) -> Result<(), AllocError>
        ensures round { OnOk result (self.new.round ≡ self.old.round + 1) }
        ensures partner { self.new.partner ≡ self.old.partner }
    {
        let (Some(round), Some(past)) = (
            self.round.checked_add(1),
            self.past.checked_add(turns as u64),
        ) else {
            return Err(AllocError);
        };
        self.round = round;
        self.past = past;
        Ok(())
    }

    /// The evaluations of the nodes whose turn it is.
    pub(crate) fn turns<G: Gate>(
        &mut self,
        gate: &G,
        alloc: Global,
        task: &Task,
        progress: &Progress,
        left: &Left,
    ) -> Result<Vec<Outcome>, AllocError>
        requires plain { task.now.instance.now.wanted ≡ None }
        requires left { IsLeft task.now progress.now left.now }
        requires ready { IsSearcher self.old task.now (standing_of task.now.instance.now progress.now left.now) }
        ensures ready { let p = task.now.instance.now in
            OnOk result (IsSearcher self.new task.now (next_round p (parts_of p) task.now.nodes (standing_of p progress.now left.now))) }
        ensures turns { let s = progress.now in IfOk result (λ v.
            AllZip (IsTurnOf task.now.instance.now s.pool.entries s.cost) (turned_of left.now.nodes.items) v.items) }
        ensures sound { let s = progress.now in IfOk result (λ v.
            AllZip (IsOutcomeOf task.now.instance.now s.pool.entries) (turned_of left.now.nodes.items) v.items) }
    {
        self.work(gate, alloc, task, progress, left)?;
        let turns = turned(left).len();
        let mut outcomes = Vec::with_capacity(alloc, turns)?;
        for place in 0..turns as u32 {
            let outcome = self.outcome(alloc, task, progress, left, place)?;
            outcomes.push(outcome)?;
        }
        self.pass(turns)?;
        Ok(outcomes)
    }
}

// The whole search by the searcher at this endpoint.
fn search_at<'a, R: Threads + Sync, G: Gate>(
    workers: &RoundWorkers<R, G>,
    alloc: Global,
    task: &Task<'a>,
    tickets: &Tickets,
    number: u32,
    desk: Desk<Task<'a>, Worked>,
) -> Result<Progress, AllocError>
    requires workers { (1 ≤ workers.now.count) × (workers.now.count ≤ 64) }
    requires plain { task.now.instance.now.wanted ≡ None }
    requires lacks_none { IsHubSet task.now.instance.now task.now.instance.now.candidates }
    requires desk { desk ≡ task.now }
    ensures { IfOk result (IsWholeSearch task.now) }
{
    let mut separator = Solo::new(alloc, task.instance)?;
    let searcher = Searcher {
        number,
        partner: Partner::new(alloc, tickets, desk),
        solo: Solo::new(alloc, task.instance)?,
        round: 0,
        past: 0,
    };
    search_by(
        workers,
        Turner::BySearcher(searcher),
        alloc,
        task,
        &mut separator,
    )
}

// The same, with its end known to the others: once it is done none waits for it, and if it gives up so do they.
fn search_to_end<'a, R: Threads + Sync, G: Gate>(
    workers: &RoundWorkers<R, G>,
    alloc: Global,
    task: &Task<'a>,
    tickets: &Tickets,
    number: u32,
    desk: Desk<Task<'a>, Worked>,
) -> Result<Progress, AllocError>
    requires workers { (1 ≤ workers.now.count) × (workers.now.count ≤ 64) }
    requires plain { task.now.instance.now.wanted ≡ None }
    requires lacks_none { IsHubSet task.now.instance.now task.now.instance.now.candidates }
    requires desk { desk ≡ task.now }
    ensures { IfOk result (IsWholeSearch task.now) }
{
    let found = search_at(workers, alloc, task, tickets, number, desk);
    match found {
        Ok(_) => tickets.finish(),
        Err(_) => tickets.end(),
    }
    found
}

// The last endpoint, which is removed from the others. All are of this task.
fn last_desk<'a>(
    _task: &Task<'a>,
    desks: &mut Vec<Desk<Task<'a>, Worked>>,
) -> Option<Desk<Task<'a>, Worked>>
    requires { All (λ d. d ≡ _task.now) desks.old.items }
    ensures desk { IfSome result (λ d. d ≡ _task.now) }
    ensures others { All (λ d. d ≡ _task.now) desks.new.items }
    ensures fewer { IfSome result (λ d. length desks.new.items + 1 ≡ length desks.old.items) }
{
    desks.pop()
}

// The whole search by the searcher at the last endpoint, beside those at the others.
#[cycle(together)]
fn together<'a, R: Threads + Sync, G: Gate>(
    workers: &RoundWorkers<R, G>,
    alloc: Global,
    task: &Task<'a>,
    tickets: &Tickets,
    mut desks: Vec<Desk<Task<'a>, Worked>>,
) -> Result<Progress, AllocError>
    requires workers { (1 ≤ workers.now.count) × (workers.now.count ≤ 64) }
    requires plain { task.now.instance.now.wanted ≡ None }
    requires lacks_none { IsHubSet task.now.instance.now task.now.instance.now.candidates }
    requires desks { All (λ d. d ≡ task.now) desks.items }
    requires few { length desks.items ≤ most_turns }
    ensures { IfOk result (IsWholeSearch task.now) }
{
    let Some(desk) = last_desk(task, &mut desks) else {
        return Err(AllocError);
    };
    let number = desks.len() as u32;
    if desks.is_empty() {
        return search_to_end(workers, alloc, task, tickets, number, desk);
    }
    let mine = move || -> Result<Progress, AllocError>
        requires { IsSync R.row × IsSync G.row × (1 ≤ workers.now.count) × (workers.now.count ≤ 64) × (desk ≡ task.now) × (task.now.instance.now.wanted ≡ None) × IsHubSet task.now.instance.now task.now.instance.now.candidates }
        ensures { IfOk result (IsWholeSearch task.entry.now) }
    { search_to_end(workers, alloc, task, tickets, number, desk) };
    let others = move || -> bool
        requires { IsSync R.row × IsSync G.row × (1 ≤ workers.now.count) × (workers.now.count ≤ 64) × All (λ d. d ≡ task.now) desks.items × (length desks.items ≤ most_turns) × (task.now.instance.now.wanted ≡ None) × IsHubSet task.now.instance.now task.now.instance.now.candidates }
    { together(workers, alloc, task, tickets, desks).is_ok() };
    let (_, found) = join(workers.rt, others, mine);
    found
}

/// All that the workers find as searchers side by side, at most 8, each in a thread of its own where one can be made.
pub(crate) fn side_by_side<R: Threads + Sync, G: Gate>(
    workers: &RoundWorkers<R, G>,
    alloc: Global,
    task: &Task,
) -> Result<Progress, AllocError>
    requires workers { (1 ≤ workers.now.count) × (workers.now.count ≤ 64) }
    requires plain { task.now.instance.now.wanted ≡ None }
    requires lacks_none { IsHubSet task.now.instance.now task.now.instance.now.candidates }
    ensures { IfOk result (IsWholeSearch task.now) }
{
    let desks = desks(alloc, *task, workers.count.min(MOST_TURNS as u32))?;
    let tickets = Tickets::new();
    together(workers, alloc, task, &tickets, desks)
}

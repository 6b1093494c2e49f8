//! An ascent pass by several workers, which take origins side by side.
//!
//! Each worker draws origins and improves their duals (`Partner` of `desks`). It sends the changes of the loads to the
//! others, so that all start an origin from the same loads. The duals are written at the end: the memory for them
//! depends on how many commodities changed.

ghost use denote.Param.Send.{IsSync};

use crate::origins::Stand;
use crate::passes::Pass;
use crate::sums::Sums;
use crate::waits::{Gain, NO_GAIN, Quote};
use ascent_lengths::{Lengths, PassWorkers, add, copy, row, row_mut, short};
use desks::{Desk, Partner, Tickets, Told, desks};
use std::alloc::{AllocError, Global};
use std::thread::{Threads, join};

/// The result of the origin at a position of the schedule: its gain, and the changes of the loads.
#[derive(Drop)]
struct Bettered {
    place: usize,
    gain: Gain,
    changes: Vec<i64>,
}

impl Told<()> for Bettered {
    ghost holds = { λ key bettered. Unit {0} };

    fn turn(&self) -> u64 {
        self.place as u64
    }
}

/// The results of a worker: prices and back-offs of the origins that it improved, the values of the commodities that
/// changed, and sums and gain of the whole pass.
#[derive(Drop)]
struct WorkerResult {
    origins: Vec<usize>,
    quotes: Vec<Quote>,
    commodities: Vec<usize>,
    values: Vec<u32>,
    sums: Sums,
    gain: Gain,
}

impl WorkerResult {
    /// Takes in the duals of an origin, given its values before and after.
    fn take(
        &mut self,
        lengths: &Lengths,
        origin: usize,
        quotes: &[Quote],
        before: &[u32],
        after: &[u32],
    ) -> Result<(), AllocError> {
        self.origins.push(origin)?;
        self.quotes.extend_from_slice(quotes)?;
        for j in 0..lengths.size {
            let values = row(after, j, lengths.places);
            if values != row(before, j, lengths.places) {
                let commodity = origin.wrapping_mul(lengths.size).wrapping_add(j);
                self.commodities.push(commodity)?;
                self.values.extend_from_slice(values)?;
            }
        }
        Ok(())
    }

    /// Writes the duals in place of the old ones.
    fn put(&self, lengths: &Lengths, quotes: &mut [Quote], values: &mut [u32]) {
        let (size, places) = (lengths.size, lengths.places);
        for (number, i) in self.origins.iter().enumerate() {
            copy(row(&self.quotes, number, size), row_mut(quotes, *i, size));
        }
        for (number, c) in self.commodities.iter().enumerate() {
            let found = row(&self.values, number, places);
            copy(found, row_mut(values, *c, places));
        }
    }
}

/// What the workers share: the pass, duals and sums at its start, and the next task numbers.
#[derive(Clone, Copy)]
struct Shared<'a> {
    pass: Pass<'a>,
    quotes: &'a [Quote],
    values: &'a [u32],
    sums: &'a Sums,
    tickets: &'a Tickets,
}

/// One worker of a pass.
#[derive(Drop)]
struct Share<'a> {
    shared: Shared<'a>,
    partner: Partner<'a, (), Bettered>,
    stand: Stand,
    // The values of the origin in work.
    values: Vec<u32>,
    // How many origins its sums include.
    over: usize,
    crop: WorkerResult,
}

impl Share<'_> {
    // Adds the results of the origins before this position to the sums.
    fn settle(&mut self, place: usize) -> Result<(), AllocError> {
        for before in self.over..place {
            let Some(told) = self.partner.awaited(before as u64)? else {
                return Err(AllocError);
            };
            let sums = &mut self.crop.sums;
            sums.total = sums.total.wrapping_add(told.gain.prices);
            add(&told.changes, &mut sums.loads);
            self.crop.gain.add(told.gain);
        }
        self.over = self.over.max(place);
        Ok(())
    }

    // Improves the origin at this position, and sends the result.
    fn better(&mut self, alloc: Global, place: usize) -> Result<(), AllocError> {
        let shared = self.shared;
        let lengths = shared.pass.lengths;
        let i = shared.pass.origins.get(place).map_or(0, |turn| turn.place);
        let mut quotes = row(shared.quotes, i, lengths.size).to_vec(alloc)?;
        let before = row(shared.values, i, lengths.origin_values());
        copy(before, &mut self.values);
        let loads = &self.crop.sums.loads;
        let gain = self
            .stand
            .better(shared.pass, loads, i, &mut quotes, &mut self.values);
        self.crop.take(lengths, i, &quotes, before, &self.values)?;
        let told = Bettered {
            place,
            gain,
            changes: self.stand.changes.to_vec(alloc)?,
        };
        self.partner.tell(alloc, told)
    }
}

impl Shared<'_> {
    // Works as the peer of this ring until the pass ends.
    fn work(self, alloc: Global, desk: Desk<(), Bettered>) -> Result<WorkerResult, AllocError> {
        let pass = self.pass;
        let mut share = Share {
            shared: self,
            partner: Partner::new(alloc, self.tickets, desk),
            stand: Stand::new(alloc, pass.core.places.len())?,
            values: vec![in alloc; 0; pass.lengths.origin_values()]?,
            over: 0,
            crop: WorkerResult {
                origins: Vec::new(alloc),
                quotes: Vec::new(alloc),
                commodities: Vec::new(alloc),
                values: Vec::new(alloc),
                sums: self.sums.copied(alloc)?,
                gain: NO_GAIN,
            },
        };
        let origins = pass.origins.len();
        for _ in 0..origins {
            let place = share.partner.ticket().min(origins as u64) as usize;
            if place >= origins {
                break;
            }
            share.settle(pass.window.over_before(place))?;
            share.better(alloc, place)?;
        }
        share.settle(origins)?;
        Ok(share.crop)
    }

    // The same, and signals that it ended or failed.
    fn follow(self, alloc: Global, desk: Desk<(), Bettered>) -> Result<WorkerResult, AllocError> {
        let crop = self.work(alloc, desk);
        match crop {
            Ok(_) => self.tickets.finish(),
            Err(_) => self.tickets.end(),
        }
        crop
    }
}

/// The results of the workers at these rings, each in a thread of its own where one can be started.
#[cycle(together)]
fn together<R: Threads + Sync>(
    rt: &R,
    alloc: Global,
    shared: Shared<'_>,
    mut desks: Vec<Desk<(), Bettered>>,
) -> Result<Vec<WorkerResult>, AllocError> {
    let Some(desk) = desks.pop() else {
        return Ok(Vec::new(alloc));
    };
    if desks.is_empty() {
        let mut crops = Vec::new(alloc);
        crops.push(shared.follow(alloc, desk)?)?;
        return Ok(crops);
    }
    let others = move || -> Result<Vec<WorkerResult>, AllocError>
        requires { IsSync R.row }
    { together(rt, alloc, shared, desks) };
    let mine = move || -> Result<WorkerResult, AllocError> { shared.follow(alloc, desk) };
    let (others, mine) = join(rt, others, mine);
    let mut crops = others?;
    crops.push(mine?)?;
    Ok(crops)
}

/// Makes the pass by several workers, at most as many as origins are under way. Updates duals and sums and returns the
/// gain; on a failure nothing has changed.
pub(crate) fn better_together<R: Threads + Sync>(
    workers: &PassWorkers<'_, R>,
    pass: Pass<'_>,
    quotes: &mut [Quote],
    values: &mut [u32],
    sums: &mut Sums,
) -> Result<Gain, AllocError> {
    let count = workers.many().min(short(pass.window.origins));
    let desks = desks(workers.alloc, (), count)?;
    let tickets = Tickets::new();
    let shared = Shared {
        pass,
        quotes,
        values,
        sums,
        tickets: &tickets,
    };
    let mut gain = NO_GAIN;
    for crop in &together(workers.rt, workers.alloc, shared, desks)? {
        crop.put(pass.lengths, quotes, values);
        sums.take(&crop.sums);
        gain = crop.gain;
    }
    Ok(gain)
}

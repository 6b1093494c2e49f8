//! The calls of a board: draw, split, join and close.
ghost use Rattle.std.specs.Prelude.{◌≡◌, ℕ, ◌+◌, ◌-◌, ◌/◌, ◌<◌, ◌≤◌, min, true, false, ◌||◌, List, [], ◌∷◌, ◌++◌, length, IfOk, MatchOption};
ghost use mathlib.Core.Option.{some};
ghost use lib.ListN.{get_elem?};
ghost use Rattle.claim_board.specs.Hands.{hand, times, kept_half, new_half, both};
ghost use Rattle.claim_board.specs.Draws.{Event, run, once_below};
ghost use Rattle.claim_board.specs.Places.{hand_of, seats_of, IsSeatOf};

use crate::boards::Board;
use crate::hands::Size;
use crate::rules::{Draw, Halves};
use crate::seats::Seat;
use atomic_table::Table;
use std::alloc::{AllocError, Global};

/// The numbers handed out in all.
#[derive(Drop)]
pub struct Drawn {
    /// The count of the numbers: exactly those below it were handed out.
    pub taken: u32,
}

impl Board {
    /// A board of `blocks` numbers, and its only seat, whose share is `seats`, from 1 to 64.
    pub fn new(alloc: Global, blocks: u32, seats: u32) -> Result<(Board, Seat), AllocError>
        requires { (1 ≤ seats) × (seats ≤ 64) }
        ensures board { IfOk result (λ r. (r.0.blocks ≡ blocks) × (seats_of r.0 ≡ seats)) }
        ensures seat { IfOk result (λ r. IsSeatOf r.0 r.1 × (hand_of r.1 ≡ hand [] seats false)) }
    {
        let size = Size { blocks, seats };
        let (table, place) = Table::of_words(alloc, &[0], &size)?;
        let board = Board { table, blocks };
        let seat = Seat {
            place,
            ended: false,
        };
        Ok((board, seat))
    }

    /// The next number, in one atomic step. `None` where the number is at least `blocks`, or where this seat has ended.
    /// The seat is then ended and draws no more.
    pub fn draw(&self, seat: &mut Seat) -> Option<u32>
        requires { IsSeatOf self.now seat.old }
        ensures seat { IsSeatOf self.now seat.new }
        ensures drawn { MatchOption result (hand_of seat.new ≡ hand (hand_of seat.old).drawn (hand_of seat.old).share true) (λ b. (b < self.now.blocks) × ((hand_of seat.old).ended ≡ false) × (times b (hand_of seat.old).drawn ≡ 0) × (hand_of seat.new ≡ hand ((hand_of seat.old).drawn ++ b ∷ []) (hand_of seat.old).share false) × (length (hand_of seat.new).drawn ≤ self.now.blocks)) }
    {
        let Seat { place, ended } = seat;
        if *ended {
            return None;
        }
        let next = self.table.shared.fetch_add::<Draw>(place, 0, 1);
        if next < u64::from(self.blocks) {
            Some(next as u32)
        } else {
            *ended = true;
            None
        }
    }

    /// Splits a seat whose share is at least 2. The first seat keeps the list; the second gets half of the share,
    /// rounded down. Both are ended where the seat was.
    pub fn split(&self, seat: Seat) -> (Seat, Seat)
        requires { IsSeatOf self.now seat × (2 ≤ (hand_of seat).share) }
        ensures seats { IsSeatOf self.now result.0 × IsSeatOf self.now result.1 }
        ensures kept { hand_of result.0 ≡ kept_half (hand_of seat) }
        ensures new { hand_of result.1 ≡ new_half (hand_of seat) }
    {
        let Seat { mut place, ended } = seat;
        let new = self.table.shared.split_seat::<Halves>(&mut place);
        (Seat { place, ended }, Seat { place: new, ended })
    }

    /// Joins two seats: lists and shares are added. The seat is ended where one of the two was.
    pub fn join(&self, seat: Seat, other: Seat) -> Seat
        requires { IsSeatOf self.now seat × IsSeatOf self.now other }
        ensures seat { IsSeatOf self.now result }
        ensures both { hand_of result ≡ both (hand_of seat) (hand_of other) }
    {
        let Seat { mut place, ended } = seat;
        let Seat {
            place: other,
            ended: other_ended,
        } = other;
        self.table.shared.join_seat::<Halves>(&mut place, other);
        Seat {
            place,
            ended: ended || other_ended,
        }
    }

    /// All that was handed out, for the seat with the whole share. Its list has each number below `taken` exactly once,
    /// and no other.
    pub fn close(self, seat: Seat) -> Drawn
        requires { IsSeatOf self seat × ((hand_of seat).share ≡ seats_of self) }
        ensures ran { (events : List Event) × (place : ℕ) × (get_elem? (run self.blocks (seats_of self) events).seats place ≡ some (hand_of seat)) × (result.taken ≡ min (run self.blocks (seats_of self) events).next self.blocks) }
        ensures each { (x : ℕ) → times x (hand_of seat).drawn ≡ once_below x result.taken }
        ensures count { result.taken ≡ length (hand_of seat).drawn }
        ensures whole { (hand_of seat).ended ≡ true → result.taken ≡ self.blocks }
    {
        let Board { table, blocks } = self;
        let Seat { place, ended: _ } = seat;
        let closed = table.close_with(place);
        let next = closed.word(0);
        closed.free();
        Drawn {
            taken: next.min(u64::from(blocks)) as u32,
        }
    }
}

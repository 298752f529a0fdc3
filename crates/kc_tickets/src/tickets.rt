//! Numbers that threads draw from one atomic cell, each once and without a lock.
//!
//! Cell 0 has the next number, cell 1 the limit, and cell 2 the number of seats. `specs/WholeDraws.antt` has the rule
//! that the cells and the seats keep between any two atomic steps.
ghost use Rattle.std.specs.Prelude.{◌≡◌, ◌<◌, ◌≤◌, ◌^◌, ◌↔◌, [], ◌∷◌, ◌++◌, ◌+◌, All, IfOk, IsNone, IsTrue};
ghost use Rattle.std.specs.Prelude.{MatchOption, OnSome, length, sum_by, vec_len, vec_capacity, ℕ};
ghost use Rattle.std.specs.List.{flat_map};
ghost use Rattle.kc_tickets.specs.Tickets.{IsSeatOf, IsDone, Draws, answers_of, AreNumbersBelow};

use atomic_table::{Join, Play, Split, Table, TableRule};
use std::alloc::{AllocError, Global};
use std::collections::LinkedList;
use std::marker::Model;

// The cell of the next number.
const NEXT: usize = 0;

// The cell of the limit.
const LIMIT: usize = 1;

// What the tickets get when they are made.
#[derive(Clone, Copy)]
struct Plan {
    limit: u64,
    seats: u64,
}

// What a seat knows. It has no values at run time.
struct View {
    limit: u64,
    // How many seats it counts for.
    weight: u64,
    drawn: LinkedList<u64>,
}

// The rule of the cells and of all views.
struct WholeDraws;

impl TableRule<(), View, Plan> for WholeDraws {
    ghost use Rattle.kc_tickets.specs.WholeDraws.{HasWholeDraws, first_view};

    ghost holds = { HasWholeDraws };

    ghost first = { first_view };
}

// One fetch_add on the next number.
struct Draw;

impl Play<(), View> for Draw {
    ghost use Rattle.kc_tickets.specs.WholeDraws.{TakesNumber};

    ghost then = { TakesNumber };
}

// One load of the limit.
struct Decide;

impl Play<(), View> for Decide {
    ghost use Rattle.kc_tickets.specs.WholeDraws.{FindsLimit};

    ghost then = { FindsLimit };
}

// A seat is made of one unit of the first seat's weight.
struct OneSeat;

impl Split<View> for OneSeat {
    ghost use Rattle.kc_tickets.specs.WholeDraws.{lighter_view, new_view};

    ghost left = { lighter_view };

    ghost right = { new_view };
}

// A seat is joined to another.
struct Return;

impl Join<View> for Return {
    ghost use Rattle.kc_tickets.specs.WholeDraws.{joined_view, spent_view};

    ghost both = { joined_view };

    ghost spent = { spent_view };
}

type Token = atomic_table::Seat<(), View>;

/// The tickets of a run: the numbers from 0 on, which the seats that were made with them draw, each number once. A draw
/// returns its number if that is below the limit, otherwise `None`. Threads share it by reference. Its view is a
/// `TicketsSeen`.
#[derive(Drop)]
pub struct Tickets {
    table: Table<(), View, Plan, WholeDraws, Global>,
}

impl Model for Tickets {
    ghost use Rattle.std.specs.Prelude.{◌≡◌, ◌≤◌};
    ghost use Rattle.kc_tickets.specs.Tickets.{TicketsSeen};

    ghost Value = { TicketsSeen };

    ghost view = { λ t.
        let shared = t.table.shared in
        record { table = shared.table_id; limit = shared.key.limit; seats = shared.key.seats } };

    ghost invariant = { λ t.
        let shared = t.table.shared in
        (shared.table_id.words ≡ 3) × (shared.table_id.slots ≡ 0) × (1 ≤ shared.key.seats) };
}

/// A seat: the right to draw from these tickets. One thread has it at a time, and it may go to another. Its view is a
/// `SeatSeen`: its tickets, and all the numbers that it drew.
#[derive(Drop)]
pub struct Seat {
    token: Token,
    done: bool,
}

impl Model for Seat {
    ghost use Rattle.std.specs.Prelude.{◌≡◌, ◌↔◌, [], IsTrue};
    ghost use Rattle.kc_tickets.specs.Tickets.{SeatSeen, IsDone};

    ghost Value = { SeatSeen };

    ghost use Rattle.kc_tickets.specs.WholeDraws.{seat_of};

    ghost view = { λ s. seat_of s.token.table_id s.token.me.0 };

    ghost invariant = { λ s.
        (s.token.me.1 ≡ []) × (s.token.me.0.weight ≡ 1)
        × (IsTrue s.done ↔ IsDone (seat_of s.token.table_id s.token.me.0)) };
}

impl Tickets {
    /// Makes the tickets below `limit`, and with them all the `seats` seats that ever draw from them. They have drawn
    /// nothing yet.
    ///
    /// Conditions: the limit is at most 2^40, and there are 1 to 64 seats. Fails only if there is no memory.
    pub fn new(alloc: Global, limit: u64, seats: u32) -> Result<(Tickets, Vec<Seat>), AllocError>
        requires limit { limit ≤ 2 ^ 40 }
        requires seats { (1 ≤ seats) × (seats ≤ 64) }
        ensures limit { IfOk result (λ made. made.0.limit ≡ limit) }
        ensures seats { IfOk result (λ made. (made.0.seats ≡ seats) × (vec_len made.1 ≡ seats)) }
        ensures own { IfOk result (λ made. All (IsSeatOf made.0) made.1.items) }
        ensures fresh { IfOk result (λ made. All (λ seat. seat.drawn ≡ []) made.1.items) }
        ensures bounded { IfOk result (λ made. vec_capacity made.1 ≤ seats) }
    {
        let plan = Plan {
            limit,
            seats: u64::from(seats),
        };
        // The first seat counts for all that are not made yet.
        let (table, mut first) = Table::of_words(alloc, &[0, plan.limit, plan.seats], &plan)?;
        let mut row = Vec::with_capacity(alloc, seats as usize)?;
        for _ in 1..seats {
            let token = table.shared.split_seat::<OneSeat>(&mut first);
            row.push_reserved(Seat { token, done: false });
        }
        row.push_reserved(Seat {
            token: first,
            done: false,
        });
        Ok((Tickets { table }, row))
    }

    /// Draws the next number, with no lock and no memory, and waits for nobody. Returns `None` if the number is not
    /// below the limit. Then the seat is done, and draws no more.
    ///
    /// Conditions: the seat belongs to these tickets and is not done. A seat's draws return at most as many numbers as
    /// there are below the limit, so a loop of draws ends.
    pub fn draw(&self, seat: &mut Seat) -> Option<u64>
        requires own { IsSeatOf self.now seat.old }
        requires more { ¬ IsDone seat.old }
        ensures own { IsSeatOf self.now seat.new }
        ensures drawn { MatchOption result
            ((number : ℕ) × (self.now.limit ≤ number) × Draws seat.old seat.new number)
            (λ number. (number < self.now.limit) × Draws seat.old seat.new number) }
        ensures done { IsNone result ↔ IsDone seat.new }
        ensures answered { MatchOption result
            (answers_of seat.new ≡ answers_of seat.old)
            (λ number. answers_of seat.new ≡ answers_of seat.old ++ number ∷ []) }
        ensures bounded { OnSome result (length (answers_of seat.new) ≤ self.now.limit) }
    {
        let shared = &self.table.shared;
        let number = shared.fetch_add::<Draw>(&mut seat.token, NEXT, 1);
        let limit = shared.load::<Decide>(&mut seat.token, LIMIT);
        if number < limit {
            return Some(number);
        }
        seat.done = true;
        None
    }

    /// Ends the draws, with all the seats that `new` gave, and takes no memory.
    ///
    /// What the seats drew, taken together, are the numbers below some number, each once. If every seat is done, the
    /// draws returned the numbers below the limit, each once, so there were as many as the limit.
    pub fn close(self, mut seats: Vec<Seat>)
        requires own { All (IsSeatOf self) seats.items }
        requires all { vec_len seats ≡ self.seats }
        ensures drawn { (next : ℕ) × AreNumbersBelow next (flat_map (λ seat. seat.drawn) seats.items) }
        ensures answered { All IsDone seats.items → AreNumbersBelow self.limit (flat_map answers_of seats.items) }
        ensures count { All IsDone seats.items → sum_by (λ seat. length (answers_of seat)) seats.items ≡ self.limit }
    {
        let Tickets { table } = self;
        let Some(first) = seats.pop() else {
            unreachable!()
        };
        let mut whole = first.token;
        while let Some(seat) = seats.pop() {
            table.shared.join_seat::<Return>(&mut whole, seat.token);
        }
        table.close_with(whole).free();
    }
}

impl Seat {
    /// Whether a draw returned `None`. Then the seat draws no more.
    pub fn is_done(&self) -> bool
        ensures { IsTrue result ↔ IsDone self.now }
    {
        self.done
    }
}

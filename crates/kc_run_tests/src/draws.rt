//! Seats that draw, one after the other and in threads.
ghost use Rattle.std.specs.Prelude.{◌≡◌, ◌<◌, ◌≤◌, ◌^◌, [], All, IfOk, nat_eq, vec_len};
ghost use Rattle.std.specs.List.{flat_map, IsDistinct};
ghost use Rattle.kc_tickets.specs.Tickets.{IsSeatOf, IsDone, answers_of, AreNumbersBelow};

use crate::run_assertions::assert_same;
use kc_run::ticket_laws::each_stands_once;
use kc_run::{Seat, Tickets};
use std::alloc::{AllocError, Global};
use std::process::Abort;
use std::snapshot::Snapshot;
use std::sync::Wait;
use std::test::Fail;
use std::thread;
use std::thread::{Promise, PromisedHandle, Scope, Threads};

// A seat of these tickets, which drew until there was no number more, and what it was returned.
#[derive(Drop)]
struct Drained(Snapshot<Tickets>);

impl Promise<Result<(Seat, Vec<u64>), AllocError>> for Drained {
    ghost use Rattle.std.specs.Prelude.{◌≡◌, IfOk};
    ghost use Rattle.kc_tickets.specs.Tickets.{IsSeatOf, IsDone, answers_of};

    ghost kept_by = { λ promise result. IfOk result (λ ended.
        IsSeatOf promise.0.value ended.0 × IsDone ended.0 × (ended.1.items ≡ answers_of ended.0)) };
}

type Draining = PromisedHandle<Result<(Seat, Vec<u64>), AllocError>, Drained>;

fn drain(alloc: Global, tickets: &Tickets, mut seat: Seat) -> Result<(Seat, Vec<u64>), AllocError>
    requires own { IsSeatOf tickets.now seat }
    requires fresh { seat.drawn ≡ [] }
    ensures { IfOk result (λ ended.
        IsSeatOf tickets.now ended.0 × IsDone ended.0 × (ended.1.items ≡ answers_of ended.0)) }
{
    let mut numbers = Vec::new(alloc);
    while let Some(number) = tickets.draw(&mut seat) {
        numbers.push(number)?;
    }
    Ok((seat, numbers))
}

// Starts a thread for each seat, which drains it.
fn start_all<'s, E>(
    scope: &Scope<'s, E>,
    alloc: Global,
    tickets: &'s Tickets,
    mut seats: Vec<Seat>,
) -> Result<Vec<Draining>, AllocError>
    requires own { All (IsSeatOf tickets.now) seats.items }
    requires fresh { All (λ seat. seat.drawn ≡ []) seats.items }
    ensures len { IfOk result (λ threads. vec_len threads ≡ vec_len seats) }
    ensures promised { IfOk result (λ threads.
        All (λ thread. thread.promise.0.value ≡ tickets.entry.now) threads.items) }
{
    let mut threads = Vec::with_capacity(alloc, seats.len())?;
    while let Some(seat) = seats.pop() {
        let promise = Drained(Snapshot::of(tickets));
        threads.push(scope.spawn_with(promise, move || drain(alloc, tickets, seat))?)?;
    }
    Ok(threads)
}

// The seats of the threads, and what they were returned.
fn join_all<R: Threads>(
    rt: &R,
    alloc: Global,
    tickets: &Tickets,
    mut threads: Vec<Draining>,
) -> Result<(Vec<Seat>, Vec<Vec<u64>>), AllocError>
    requires { All (λ thread. thread.promise.0.value ≡ tickets.now) threads.items }
    ensures len { IfOk result (λ ended. vec_len ended.0 ≡ vec_len threads) }
    ensures own { IfOk result (λ ended. All (IsSeatOf tickets.now) ended.0.items) }
    ensures done { IfOk result (λ ended. All IsDone ended.0.items) }
    ensures numbers { IfOk result (λ ended.
        flat_map (λ v. v.items) ended.1.items ≡ flat_map answers_of ended.0.items) }
{
    let (mut seats, mut all) = (Vec::new(alloc), Vec::new(alloc));
    while let Some(thread) = threads.pop() {
        let (seat, numbers) = thread.join(rt)?;
        seats.push(seat)?;
        all.push(numbers)?;
    }
    Ok((seats, all))
}

// What threads are returned, each with a seat of its own: each number below the limit, once.
fn share_out<R: Threads + Wait>(
    rt: &R,
    alloc: Global,
    limit: u64,
    seats: u32,
) -> Result<Vec<Vec<u64>>, AllocError>
    requires limit { limit ≤ 2 ^ 40 }
    requires seats { (1 ≤ seats) × (seats ≤ 64) }
    ensures whole { IfOk result (λ all. AreNumbersBelow limit (flat_map (λ v. v.items) all.items)) }
    ensures distinct { IfOk result (λ all. IsDistinct nat_eq (flat_map (λ v. v.items) all.items)) }
{
    let (tickets, row) = Tickets::new(alloc, limit, seats)?;
    let shared = &tickets;
    let (row, all) = thread::scope(
        thread::scope_env(),
        rt,
        |scope| -> Result<(Vec<Seat>, Vec<Vec<u64>>), AllocError>
            requires { All (IsSeatOf shared.now) row.items × All (λ seat. seat.drawn ≡ []) row.items }
            ensures { IfOk result (λ ended.
                (vec_len ended.0 ≡ vec_len row)
                × All (IsSeatOf shared.entry.now) ended.0.items × All IsDone ended.0.items
                × (flat_map (λ v. v.items) ended.1.items ≡ flat_map answers_of ended.0.items)) }
        {
            let threads = start_all(scope, alloc, shared, row)?;
            join_all(rt, alloc, shared, threads)
        },
    )?;
    tickets.close(row);
    each_stands_once();
    Ok(all)
}

// What the seat at this index draws next. A seat that is done draws no more.
fn draw_at(tickets: &Tickets, seats: &mut Vec<Seat>, index: usize) -> Option<u64>
    requires own { All (IsSeatOf tickets.now) seats.old.items }
    requires index { index < vec_len seats.old }
    ensures own { All (IsSeatOf tickets.now) seats.new.items }
    ensures len { vec_len seats.new ≡ vec_len seats.old }
{
    if seats[index].is_done() {
        return None;
    }
    tickets.draw(&mut seats[index])
}

// What the seat at this index draws next, and whether it is done then.
fn turn_at(tickets: &Tickets, seats: &mut Vec<Seat>, index: usize) -> (Option<u64>, bool)
    requires own { All (IsSeatOf tickets.now) seats.old.items }
    requires index { index < vec_len seats.old }
    ensures own { All (IsSeatOf tickets.now) seats.new.items }
    ensures len { vec_len seats.new ≡ vec_len seats.old }
{
    let number = draw_at(tickets, seats, index);
    (number, seats[index].is_done())
}

// A seat's index, the result of its draw, and whether it is done then.
type Turn = (usize, Option<u64>, bool);

// Lets a seat draw, and asserts what it is returned and whether it is done then.
fn assert_turn<R: Abort>(rt: &R, tickets: &Tickets, seats: &mut Vec<Seat>, turn: &Turn)
    requires own { All (IsSeatOf tickets.now) seats.old.items }
    ensures own { All (IsSeatOf tickets.now) seats.new.items }
    ensures len { vec_len seats.new ≡ vec_len seats.old }
{
    let (index, number, is_done) = *turn;
    assert!(rt; index < seats.len());
    let drawn = turn_at(tickets, seats, index);
    assert_same(rt, index, &drawn, &(number, is_done));
}

// Lets this many seats draw below a limit, in these turns.
fn play<R: Abort>(
    rt: &R,
    alloc: Global,
    limit: u64,
    seats: u32,
    turns: &[Turn],
) -> Result<(), AllocError>
    requires limit { limit ≤ 2 ^ 40 }
    requires seats { (1 ≤ seats) × (seats ≤ 64) }
{
    let (tickets, mut row) = Tickets::new(alloc, limit, seats)?;
    for turn in turns {
        assert_turn(rt, &tickets, &mut row, turn);
    }
    tickets.close(row);
    Ok(())
}

// Two seats draw below 2 in turn.
const TWO: &[Turn] = &[
    (0, Some(0), false),
    (1, Some(1), false),
    (0, None, true),
    (1, None, true),
];

// One seat draws below 0.
const NONE: &[Turn] = &[(0, None, true)];

#[test]
fn numbers_below_the_limit_are_answered_in_turn(rt: HostRuntime) -> Result<(), Fail> {
    play(&rt, rt.alloc(), 2, 2, TWO)?;
    play(&rt, rt.alloc(), 0, 1, NONE)?;
    Ok(())
}

#[test]
fn as_many_seats_as_numbers_are_answered(rt: HostRuntime) -> Result<(), Fail> {
    let (tickets, mut seats) = Tickets::new(rt.alloc(), 3, 64)?;
    assert_same(&rt, "seats", &seats.len(), &64);
    let (mut some, mut none) = (0u64, 0u64);
    for index in 0..64 {
        match draw_at(&tickets, &mut seats, index) {
            Some(number) => {
                assert_eq!(rt; number, some);
                some += 1;
            }
            None => none += 1,
        }
    }
    assert_same(&rt, "answers", &(some, none), &(3, 61));
    tickets.close(seats);
    Ok(())
}

// The numbers of all lists, in ascending order.
fn sorted_numbers(alloc: Global, lists: &[Vec<u64>]) -> Result<Vec<u64>, AllocError> {
    let mut all = Vec::new(alloc);
    for numbers in lists {
        all.extend_from_slice(numbers)?;
    }
    all.sort_unstable();
    Ok(all)
}

#[test]
fn threads_are_answered_each_number_once(rt: HostRuntime) -> Result<(), Fail> {
    let all = share_out(&rt, rt.alloc(), 1000, 8)?;
    let numbers = sorted_numbers(rt.alloc(), &all)?;
    assert_same(&rt, "numbers", &numbers.len(), &1000);
    for (place, number) in numbers.iter().enumerate() {
        assert_same(&rt, "a number", number, &(place as u64));
    }
    Ok(())
}

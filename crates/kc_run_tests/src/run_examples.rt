//! The examples at the front of kc_tickets and kc_run.
use crate::whole_runs::{batches_of, made_setup};
use kc_run::{NoGate, Tally, Tickets, plain_tables, run};
use std::test::Fail;

#[test]
fn a_seat_draws_the_first_number(rt: HostRuntime) -> Result<(), Fail> {
    let alloc = rt.alloc();
    let (tickets, mut seats) = Tickets::new(alloc, 2, 1)?;
    let seat = &mut seats[0];
    if !seat.is_done() {
        assert_eq!(rt; tickets.draw(seat), Some(0));
    }
    Ok(())
}

#[test]
fn two_workers_count_batches(rt: HostRuntime) -> Result<(), Fail> {
    let alloc = rt.alloc();
    let setup = made_setup(3, 2)?;
    let batches = batches_of(alloc, &setup, b"ACGTA", 1)?;
    let tables = plain_tables(alloc, &setup)?;
    let tally: Tally = run(&rt, alloc, &batches, &setup, tables, 2, &NoGate)?;
    assert_eq!(rt; tally.total(), 3);
    Ok(())
}

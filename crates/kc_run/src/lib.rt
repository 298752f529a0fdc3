//! Whole runs: several workers count numbered batches, and their counts are gathered.
//!
//! `run` counts numbered batches with several workers, each in a thread of its own, over one table in locked stripes,
//! and returns the tally of all batches or its numbers. The workers draw the numbers of the batches from the tickets of
//! `kc_tickets`.
//!
//! ```ignore
//! let tables = plain_tables(alloc, &setup)?;
//! let tally: Tally = run(&rt, alloc, &batches, &setup, tables, 2, &NoGate)?;    // by two workers
//! assert_eq!(rt; tally.total(), 3);
//! ```
#![tactic(auto)]

mod crew;
mod gate;
mod round_booking;
mod run_fault;
mod whole_run;
mod worker;

pub use crate::gate::{Gate, NoGate};
pub use crate::run_fault::RunFault;
pub use crate::whole_run::run;
pub use kc_gather::{GatherFault, Numbers, Summary, gather, plain_tables, quotient_tables};
pub use kc_tally::{Histogram, Statistics, Tally};
pub use kc_tickets::{Seat, Tickets, ticket_laws, tickets};

//! Tickets: numbers that threads draw, each once and without a lock.
//!
//! `Tickets::new` makes tickets with a limit, and with them all the `Seat`s that ever draw from them. Threads share the
//! tickets by reference, and each has a seat of its own. `Tickets::draw` returns the next number below the limit, with
//! two atomic steps and no lock, and `None` once there is none left; then the seat is done. `Tickets::close` takes all
//! seats back, and its contract states what was drawn: each number below the limit was returned once. `ticket_laws` has
//! what callers conclude from that.
//!
//! ```ignore
//! let (tickets, mut seats) = Tickets::new(alloc, 2, 1)?;    // two numbers, and a seat for one thread
//! let seat = &mut seats[0];
//! if !seat.is_done() {
//!     assert_eq!(rt; tickets.draw(seat), Some(0));
//! }
//! ```
#![tactic(auto)]

pub mod ticket_laws;
pub mod tickets;

pub use crate::tickets::{Seat, Tickets};

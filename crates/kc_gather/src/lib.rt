//! The end of a count: the tally that is gathered from its stripes after all batches were booked. It is refused unless
//! each journal has exactly the given batches.
//!
//! ```ignore
//! let tally = gather(alloc, stripes, &batches, &setup)?;    // by value: tables are freed on the way
//! assert_eq!(rt; tally.total(), 3);
//! ```
#![tactic(auto)]

mod columns;
mod gather_fault;
pub mod gather_laws;
mod gathered_numbers;
mod gatherer;
mod given_stripes;
mod joined_stripes;
mod journal;
mod parts;
mod piles;
mod stripe_part;
mod summary;
mod taken_parts;
mod taken_rows;

pub use gather_fault::GatherFault;
pub use gathered_numbers::Numbers;
pub use gatherer::gather;
/// The tables of a new count.
pub use kc_booking::{plain_tables, quotient_tables};
pub use summary::Summary;

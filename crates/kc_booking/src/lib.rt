//! One stripe of a count: how words are divided among stripes, the keys of a batch's words in each stripe, and a stripe
//! that always has exactly the counts of the batches in its journal.
//!
//! A [`Setup`] divides the words, all of them or only those of a list. [`cut_up`] cuts a batch up into one [`Cut`] for
//! each stripe, and [`Stripe::book`] counts a cut whole or not at all. A [`Round`] cuts several batches up in buffers
//! that are used again, and [`Stripe::book_all`] counts all their words in a stripe, its [`Cuts`], or none. A stripe
//! begins with an empty table: [`plain_tables`] and [`quotient_tables`] make one for each.
//!
//! ```ignore
//! for batch in batches {
//!     let cuts = cut_up(alloc, setup, batch)?;
//!     stripe.book(cuts.first().ok_or("no cut")?)?;    // the one stripe of the setup
//! }
//! ```
#![tactic(auto)]

mod at_least;
mod booking_fault;
mod buffers;
mod counted;
mod cut;
mod cuts;
mod part_order;
mod round;
mod setup;
mod starting_tables;
mod stripe;

pub use booking_fault::BookFault;
pub use cut::{Cut, cut_up};
pub use cuts::{Cuts, clones_of};
pub use part_order::Ordered;
pub use round::Round;
pub use setup::Setup;
pub use starting_tables::{plain_tables, quotient_tables};
pub use stripe::Stripe;

//! The stripes of a count, each behind a lock of its own, which threads share: what was booked with the shares, taken
//! together, is what the stripes' journals have.
//!
//! [`Stripes`] books the cuts of `kc_booking`, of one batch or of several at once, returns what was counted so far of a
//! word ([`Seen`]), and gives the plain stripes back at the end.
//!
//! ```ignore
//! let other = stripes.split(&mut one);
//! let (first, second) = batches.split_at(batches.len() / 2);
//! let (mut whole, other) = book_halves(rt, alloc, stripes, (one, other), (first, second))?;
//! stripes.join(&mut whole, other);
//! ```
#![tactic(auto)]

mod locked;
mod seen;
mod stripes;
mod terms;

/// One stripe of a count, and what is booked into it.
pub use kc_booking::{BookFault, Cut, Cuts, Ordered, Round, Setup, Stripe, cut_up};
/// What the shares of a count are made of.
pub use kc_share::{Books, Share, Sheet};
pub use seen::Seen;
pub use stripes::Stripes;
pub use terms::Terms;

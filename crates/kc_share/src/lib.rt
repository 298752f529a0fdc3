//! Shares that add up: what several threads booked into stripes behind locks, taken together, is what the stripes'
//! journals have, for every order of the threads' steps.
//!
//! A sheet knows nothing of locks and tables. It gives a keeper for each stripe, which goes behind that stripe's lock,
//! and a share, which is split among the threads that book. `OpenSheet::note` records what was booked, given a share
//! and a keeper.
//!
//! ```ignore
//! let (sheet, mut opening) = sheet.open::<N>();
//! let mut locks = Vec::new(alloc);
//! for stripe in 0..2u32 {
//!     locks.push(Mutex::new(Locked::new(sheet.next_keeper(&mut opening), stripe)))?;
//! }
//! let share = sheet.first_share(opening);
//! ```
#![tactic(auto)]

mod books;
mod entry;
mod keeper;
mod share;
pub mod share_laws;
mod sheet;
mod sheet_rule;
mod sheet_steps;

pub use crate::books::Books;
pub use crate::entry::{Booking, Entry, KeptStripe, Plan};
pub use crate::keeper::Keeper;
pub use crate::share::Share;
pub use crate::sheet::{OpenSheet, Opening, Sheet};

//! The finite map from keys to counts, and tables that implement it.
//!
//! [`Counts`] is the trait for callers; each table has its clauses. [`QuotientTable`] is the table to count with: its
//! slots store only the part of a key that the slot's index does not determine, and it grows by doubling.
//! [`PlainCounts`] is the same map in a `BTreeMap`, for comparison, and [`LimitedCounts`] one that refuses keys as a
//! test chooses.
//!
//! `count` counts a key, which it stores if it is new, and returns the new count. It is refused if the table may not
//! grow, and then leaves each count unchanged. `uncount` decreases a count again. `rows` gives the keys that were
//! counted:
//!
//! ```ignore
//! assert!(rt; table.get(key) < 1 << 62);
//! table.count(key)    // the new count, or refused and no count changed
//! ```
//!
//! A key can also be stored first, by `ready`, and counted later, by `add`, which cannot be refused.
#![tactic(auto)]

mod counts;
mod great_counts;
mod limited_counts;
mod number_rows;
mod packed_slots;
mod plain_counts;
mod quotient_table;
mod reprobes;
mod sizes;
mod slots;
mod table_fault;
mod tag;

pub use counts::Counts;
/// Counts the slots that `QuotientTable::find` reads. Only contracts see the number.
pub use kc_lemmas::Steps;
pub use limited_counts::LimitedCounts;
pub use plain_counts::PlainCounts;
pub use quotient_table::QuotientTable;
/// The most parts of a table, by `Counts::part_of`.
pub use sizes::PARTS;
pub use table_fault::TableFault;

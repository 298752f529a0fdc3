//! What the crates above have in common: a number of steps that only contracts see, vectors with bounded capacity,
//! items in buckets, and lemmas on lists in `proofs/`.
#![tactic(auto)]

mod buckets;
mod room;
mod steps;

pub use buckets::{bucket_sizes, put_by_bucket};
pub use room::{room_for_each, zeros};
pub use steps::Steps;

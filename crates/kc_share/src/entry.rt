//! What is booked and kept, for contracts. Only the plan has values at run time.
use kc_word::Batch;
use std::collections::LinkedList;

/// What a sheet gets when it is made: how many stripes there are, and into how many parts its shares can be split.
#[derive(Clone, Copy)]
pub struct Plan {
    pub stripes: u64,
    pub parts: u64,
}

/// A batch that was booked into a stripe, and how many words it had there.
pub struct Entry {
    pub batch: Batch,
    pub words: u64,
}

/// An entry, and the number of the stripe that it was booked into.
pub struct Booking {
    pub stripe: u64,
    pub entry: Entry,
}

/// A stripe's number, and its journal.
pub struct KeptStripe {
    pub stripe: u64,
    pub journal: LinkedList<Entry>,
}

/// What a share or a keeper has of its sheet, or both during a booking.
pub struct View {
    pub plan: Plan,
    pub parts: u64,
    // All that the share booked.
    pub booked: LinkedList<Booking>,
    // The stripes whose journals are kept.
    pub kept: LinkedList<KeptStripe>,
}

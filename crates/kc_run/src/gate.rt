//! What workers call before and after they book a batch.

/// A gate: it is called before a worker's first and after its last booking of a batch, and so learns of the progress.
pub trait Gate {
    /// Before the worker books the batch with this number into its first stripe.
    fn before_book(&self, worker: u32, batch: u64);

    /// After the worker has booked the batch with this number into its last stripe.
    fn after_book(&self, worker: u32, batch: u64);
}

/// The gate that does nothing.
#[derive(Clone, Copy, Debug)]
pub struct NoGate;

impl Gate for NoGate {
    fn before_book(&self, _worker: u32, _batch: u64) {}

    fn after_book(&self, _worker: u32, _batch: u64) {}
}

/// Called when a worker begins a line and when it is done, with the line's index. It doesn't see answers.
pub trait Gate: Sync {
    /// A worker begins the line with this index.
    fn enter(&self, index: u64);

    /// The line with this index is done.
    fn leave(&self, index: u64);
}

/// The gate that does nothing.
pub struct NoGate;

impl Gate for NoGate {
    fn enter(&self, _index: u64) {}

    fn leave(&self, _index: u64) {}
}

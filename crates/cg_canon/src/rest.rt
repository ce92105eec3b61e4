//! What stays of a work.

/// What no call of a store changes of a work. No value of it is made: contracts alone see it.
pub struct WorkRest<R> {
    /// The rest of the work's store.
    pub of_store: R,
    /// Which store the work borrows.
    pub name: u64,
    /// The cost so far.
    pub spent: u64,
    /// The greatest cost.
    pub share: u64,
    /// What the store had to spare when the work began.
    pub start: u64,
    /// The limit on positions.
    pub limit: u64,
}

//! The values of the boards that moves on a board lead to.

use cg_nodes::Handle;
use smallvec::SmallVec;

/// Handles of the values of the boards that moves on a board lead to, in the order of the moves.
#[derive(Drop)]
pub(crate) struct Options {
    /// How many are those of Left's moves, which come first.
    pub(crate) lefts: usize,
    pub(crate) handles: SmallVec<Handle, 8>,
}

//! Whether rules cut boards into pieces.

use crate::Boards;

/// What rules answer of the pieces of a board.
#[derive(Debug, Drop)]
pub enum Pieces {
    /// The rules don't cut boards.
    Whole,
    /// The rules cut boards, and these are the board's pieces, in order. There may be none.
    Cut(Boards),
}

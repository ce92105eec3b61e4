//! Who moves.

/// A player.
#[derive(Clone, Copy, Debug, PartialEq, Eq)]
pub enum Player {
    /// Left.
    Left,
    /// Right.
    Right,
}

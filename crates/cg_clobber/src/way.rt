//! The ways in which a stone moves.

/// A way from a cell to a neighbour.
#[derive(Clone, Copy, Debug, PartialEq, Eq)]
pub enum Way {
    /// To the row above.
    Up,
    /// To the row below.
    Down,
    /// To the column before.
    Back,
    /// To the column behind.
    Forth,
}

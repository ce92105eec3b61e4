//! The eight directions.

/// A direction on a board: up or down the rows, back or forth in a row, or both.
#[derive(Clone, Copy, Debug, PartialEq, Eq)]
pub enum Way {
    UpBack,
    Up,
    UpForth,
    Back,
    Forth,
    DownBack,
    Down,
    DownForth,
}

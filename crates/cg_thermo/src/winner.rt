//! Who wins.

/// Who wins, whoever begins.
#[derive(Clone, Copy, Debug, PartialEq, Eq)]
pub enum Outcome {
    /// Left.
    L,
    /// Right.
    R,
    /// The previous player: whoever doesn't begin.
    P,
    /// The next player: whoever begins.
    N,
}

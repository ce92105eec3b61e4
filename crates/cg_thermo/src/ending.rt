//! Where the play of a game ends.
use cg_dyadic::Dyadic;

/// The stops of a game.
#[derive(Clone, Copy, Debug, PartialEq, Eq)]
pub struct Stops {
    /// Where play ends that Left begins.
    pub left: Dyadic,
    /// Where play ends that Right begins.
    pub right: Dyadic,
}

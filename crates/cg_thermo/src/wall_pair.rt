//! The walls of a game, while they are found.
use cg_walls::Rise;

/// The walls of a game in units of 1/2^60.
#[derive(Debug, Drop)]
pub(crate) struct WallPair {
    /// The negative of the left wall.
    pub left: Rise,
    /// The right wall.
    pub right: Rise,
    /// From when on both are the mast: the temperature, or 0 for a number.
    pub end: u128,
}

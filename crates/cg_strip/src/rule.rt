//! A rule of a strip game.
use cg_moves::{Cells, Player};

/// A rule: where the pattern stands, the player may write the replacement.
#[derive(Debug, Drop)]
pub struct Rule {
    /// Whose rule it is.
    pub player: Player,
    /// What has to stand in the row.
    pub pattern: Cells,
    /// What is written there.
    pub replacement: Cells,
}

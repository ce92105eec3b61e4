//! Why boards were refused.
ghost use Rattle.std.specs.Prelude.{◌≡◌};

use std::alloc::{AllocError, AllocFailed};
use thiserror::Error;

/// Why no boards were listed.
#[derive(Clone, Copy, Debug, PartialEq, Eq, Error)]
pub enum ReachFault {
    /// There are more boards than the limit.
    #[error("more positions than the limit")]
    Positions,
    /// There was no memory for them.
    #[error("out of memory")]
    Memory,
}

impl From<AllocError> for ReachFault {
    ghost use Rattle.cg_moves.specs.declared.fault.ReachFault.TheVariants.{Memory};

    ghost from_gives = { λ _ e. e ≡ Memory };

    fn from(_error: AllocError) -> ReachFault {
        ReachFault::Memory
    }
}

impl<T: Drop> From<AllocFailed<T>> for ReachFault {
    ghost use Rattle.cg_moves.specs.declared.fault.ReachFault.TheVariants.{Memory};

    ghost from_gives = { λ _ e. e ≡ Memory };

    fn from(_error: AllocFailed<T>) -> ReachFault {
        ReachFault::Memory
    }
}

/// Why a text is no board. A place counts bytes of the text from 1.
#[derive(Clone, Copy, Debug, PartialEq, Eq, Error)]
pub enum BoardFault {
    /// At this place stands a byte that is no symbol of the game.
    #[error("no symbol of the game at byte {0}")]
    Symbol(u64),
    /// The first row has no cell.
    #[error("no cell at byte {0}")]
    Empty(u64),
    /// The row that starts at this place isn't as long as the first.
    #[error("a row of another length at byte {0}")]
    Ragged(u64),
    /// At this place stands the 65th cell.
    #[error("more than 64 cells at byte {0}")]
    Large(u64),
    /// At this place the rules leave their grammar or don't fit together.
    #[error("no rules at byte {0}")]
    Rules(u64),
    /// The rule with this number doesn't lower the sum of weights.
    #[error("rule {0} doesn't lower the weights")]
    Lowering(u64),
    /// There is no memory.
    #[error("out of memory")]
    Memory,
}

impl From<AllocError> for BoardFault {
    ghost use Rattle.cg_moves.specs.declared.fault.BoardFault.TheVariants.{Memory};

    ghost from_gives = { λ _ e. e ≡ Memory };

    fn from(_error: AllocError) -> BoardFault {
        BoardFault::Memory
    }
}

impl<T: Drop> From<AllocFailed<T>> for BoardFault {
    ghost use Rattle.cg_moves.specs.declared.fault.BoardFault.TheVariants.{Memory};

    ghost from_gives = { λ _ e. e ≡ Memory };

    fn from(_error: AllocFailed<T>) -> BoardFault {
        BoardFault::Memory
    }
}

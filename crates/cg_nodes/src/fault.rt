ghost use Rattle.std.specs.Prelude.{◌≡◌};

use std::alloc::{AllocError, AllocFailed};
use thiserror::Error;

/// Why no positions were listed.
#[derive(Clone, Copy, Debug, PartialEq, Eq, Error)]
pub enum PositionsFault {
    #[error("more positions than the limit")]
    Positions,
    #[error("out of memory")]
    Memory,
}

impl<T: Drop> From<AllocFailed<T>> for PositionsFault {
    ghost use Rattle.cg_nodes.specs.declared.fault.PositionsFault.TheVariants.{Memory};

    ghost from_gives = { λ _ e. e ≡ Memory };

    fn from(_error: AllocFailed<T>) -> PositionsFault {
        PositionsFault::Memory
    }
}

impl From<AllocError> for PositionsFault {
    ghost use Rattle.cg_nodes.specs.declared.fault.PositionsFault.TheVariants.{Memory};

    ghost from_gives = { λ _ e. e ≡ Memory };

    fn from(_error: AllocError) -> PositionsFault {
        PositionsFault::Memory
    }
}

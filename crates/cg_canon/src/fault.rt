//! Why a value is refused.
ghost use Rattle.std.specs.Prelude.{◌≡◌};

use std::alloc::{AllocError, AllocFailed};
use thiserror::Error;

/// Why no value was made. Of the causes that apply, the first in the order `Positions`, `Range`, `Depth`, `Full` is
/// given.
#[derive(Clone, Copy, Debug, PartialEq, Eq, Error)]
pub enum ValueFault {
    /// The value equals a number out of range, or was to be such a number.
    #[error("a value equals a number out of range")]
    Range,
    /// The total cost, which this fault holds, is above the share.
    #[error("the total cost {0} is above the share")]
    Full(u64),
    /// The depth of the value, which this fault holds, is above 512.
    #[error("the depth {0} is above 512")]
    Depth(u64),
    /// The list of what is to be made is longer than the limit on positions.
    #[error("too many positions")]
    Positions,
    /// There is no memory.
    #[error("no memory")]
    Memory,
}

impl From<AllocError> for ValueFault {
    ghost use Rattle.cg_canon.specs.declared.fault.ValueFault.TheVariants.{Memory};

    ghost from_gives = { λ _ e. e ≡ Memory };

    fn from(_error: AllocError) -> ValueFault {
        ValueFault::Memory
    }
}

impl<T: Drop> From<AllocFailed<T>> for ValueFault {
    ghost use Rattle.cg_canon.specs.declared.fault.ValueFault.TheVariants.{Memory};

    ghost from_gives = { λ _ e. e ≡ Memory };

    fn from(_error: AllocFailed<T>) -> ValueFault {
        ValueFault::Memory
    }
}

ghost use Rattle.std.specs.Prelude.{◌≡◌};

use std::alloc::{AllocError, AllocFailed};
use thiserror::Error;

/// Why there is no canonical form.
#[derive(Clone, Copy, Debug, PartialEq, Eq, Error)]
pub enum SlowFault {
    #[error("a position equals a number out of range")]
    Range,
    #[error("no memory")]
    Memory,
}

impl From<AllocError> for SlowFault {
    ghost use Rattle.cg_form.specs.declared.fault.SlowFault.TheVariants.{Memory};

    ghost from_gives = { λ _ e. e ≡ Memory };

    fn from(_error: AllocError) -> SlowFault {
        SlowFault::Memory
    }
}

impl<T: Drop> From<AllocFailed<T>> for SlowFault {
    ghost use Rattle.cg_form.specs.declared.fault.SlowFault.TheVariants.{Memory};

    ghost from_gives = { λ _ e. e ≡ Memory };

    fn from(_error: AllocFailed<T>) -> SlowFault {
        SlowFault::Memory
    }
}

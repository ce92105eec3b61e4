//! Why there is no thermograph.
ghost use Rattle.std.specs.Prelude.{◌≡◌};

use std::alloc::{AllocError, AllocFailed};
use thiserror::Error;

/// Why there is no thermograph.
#[derive(Clone, Copy, Debug, PartialEq, Eq, Error)]
pub enum ThermoFault {
    /// The mean or the temperature of some position needs more than 60 binary places.
    #[error("a temperature needs more than 60 binary places")]
    Range,
    /// There is no memory.
    #[error("no memory")]
    Memory,
}

impl From<AllocError> for ThermoFault {
    ghost use Rattle.cg_thermo.specs.declared.fault.ThermoFault.TheVariants.{Memory};

    ghost from_gives = { λ _ e. e ≡ Memory };

    fn from(_error: AllocError) -> ThermoFault {
        ThermoFault::Memory
    }
}

impl<T: Drop> From<AllocFailed<T>> for ThermoFault {
    ghost use Rattle.cg_thermo.specs.declared.fault.ThermoFault.TheVariants.{Memory};

    ghost from_gives = { λ _ e. e ≡ Memory };

    fn from(_error: AllocFailed<T>) -> ThermoFault {
        ThermoFault::Memory
    }
}

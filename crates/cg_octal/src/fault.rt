ghost use Rattle.std.specs.Prelude.{◌≡◌};

use std::alloc::AllocError;
use thiserror::Error;

/// Why the code or the heap is refused.
#[derive(Clone, Copy, Debug, PartialEq, Eq, Error)]
pub enum OctalFault {
    /// The text is no code; the column is 1 plus the length of its longest prefix that begins a code.
    #[error("no octal code at {0}")]
    Code(u64),
    #[error("the heap is too large")]
    Heap,
    #[error("out of memory")]
    Memory,
}

impl From<AllocError> for OctalFault {
    ghost use Rattle.cg_octal.specs.declared.fault.OctalFault.TheVariants.{Memory};

    ghost from_gives = { λ _ e. e ≡ Memory };

    fn from(_error: AllocError) -> OctalFault {
        OctalFault::Memory
    }
}

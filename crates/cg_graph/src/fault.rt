//! Why texts are no graphs.
ghost use Rattle.std.specs.Prelude.{◌≡◌};

use std::alloc::{AllocError, AllocFailed};
use thiserror::Error;

/// Why a text is no graph. A place counts bytes from 1: in `Symbol`, `Empty` and the `Large` of Col and Snort those of
/// the vertices, and in `Edges` and the `Large` of Hackenbush those of the edges.
#[derive(Clone, Copy, Debug, PartialEq, Eq, Error)]
pub enum GraphFault {
    /// At this place stands a byte that is none of `.`, `x` and `o`.
    #[error("no symbol of the game at byte {0}")]
    Symbol(u64),
    /// There is no vertex.
    #[error("no vertex at byte {0}")]
    Empty(u64),
    /// At this place stands the 53rd vertex, or starts the 65th edge of Hackenbush.
    #[error("too large from byte {0} on")]
    Large(u64),
    /// At this place the edges leave their grammar or name no other vertex.
    #[error("no edge at byte {0}")]
    Edges(u64),
    /// There is no memory.
    #[error("out of memory")]
    Memory,
}

impl From<AllocError> for GraphFault {
    ghost use Rattle.cg_graph.specs.declared.fault.GraphFault.TheVariants.{Memory};

    ghost from_gives = { λ _ e. e ≡ Memory };

    fn from(_error: AllocError) -> GraphFault {
        GraphFault::Memory
    }
}

impl<T: Drop> From<AllocFailed<T>> for GraphFault {
    ghost use Rattle.cg_graph.specs.declared.fault.GraphFault.TheVariants.{Memory};

    ghost from_gives = { λ _ e. e ≡ Memory };

    fn from(_error: AllocFailed<T>) -> GraphFault {
        GraphFault::Memory
    }
}

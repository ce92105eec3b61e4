//! Why texts are no positions, and expressions have no value.
ghost use Rattle.std.specs.Prelude.{◌≡◌};
ghost use Rattle.cg_eval.specs.IllFormed.{is_memory};
ghost use Rattle.cg_eval.specs.Parts.{widened};

use cg_canon::ValueFault;
use cg_graph::GraphFault;
use cg_moves::BoardFault;
use cg_nodes::Handle;
use cg_octal::OctalFault;
use std::alloc::{AllocError, AllocFailed};

/// Why the text of a game is ill-formed: that of a board, that of a graph, or the code and the heap of an octal game.
#[derive(Clone, Copy, Debug, PartialEq, Eq)]
pub enum GameFault {
    /// The text of a board.
    Board(BoardFault),
    /// The text of a graph.
    Graph(GraphFault),
    /// The code or the heap of an octal game.
    Octal(OctalFault),
}

/// Whether memory was wanting.
pub(crate) fn is_memory(fault: GameFault) -> bool
    ensures { result ≡ is_memory fault }
{
    match fault {
        GameFault::Board(BoardFault::Memory) => true,
        GameFault::Board(_) => false,
        GameFault::Graph(GraphFault::Memory) => true,
        GameFault::Graph(_) => false,
        GameFault::Octal(OctalFault::Memory) => true,
        GameFault::Octal(_) => false,
    }
}

/// Why an expression has no value.
#[derive(Clone, Copy, Debug, PartialEq, Eq)]
pub enum NoValue {
    /// Its first ill-formed board or heap from the left is so.
    IllFormed(GameFault),
    /// An item of it is refused, or there is no memory.
    Refused(ValueFault),
}

impl From<AllocError> for NoValue {
    ghost use Rattle.cg_canon.specs.declared.fault.ValueFault.TheVariants.{Memory};
    ghost use Rattle.cg_eval.specs.declared.fault.NoValue.TheVariants.{Refused};

    ghost from_gives = { λ _ e. e ≡ Refused Memory };

    fn from(_error: AllocError) -> NoValue {
        NoValue::Refused(ValueFault::Memory)
    }
}

impl<T: Drop> From<AllocFailed<T>> for NoValue {
    ghost use Rattle.cg_canon.specs.declared.fault.ValueFault.TheVariants.{Memory};
    ghost use Rattle.cg_eval.specs.declared.fault.NoValue.TheVariants.{Refused};

    ghost from_gives = { λ _ e. e ≡ Refused Memory };

    fn from(_error: AllocFailed<T>) -> NoValue {
        NoValue::Refused(ValueFault::Memory)
    }
}

/// The handle, or the fault as the cause why there is no value.
pub(crate) fn widen(made: Result<Handle, ValueFault>) -> Result<Handle, NoValue>
    ensures { result ≡ widened made }
{
    match made {
        Ok(handle) => Ok(handle),
        Err(fault) => Err(NoValue::Refused(fault)),
    }
}

//! Boards of Amazons read from texts.
ghost use Rattle.std.specs.Prelude.{◌≢◌, IfOk, IfErr};
ghost use Rattle.cg_amazons.specs.Boards.{IsAmazonsBoard, IsNoAmazonsBoard};

use cg_moves::{Board, BoardFault, read_grid};
use std::alloc::Global;

/// The board of a text: rows of empty cells, queens and blocked cells, with a bar between rows. Where it is refused, it
/// is for the first of the causes by which any rows of these symbols are. It takes no memory.
pub fn read(alloc: Global, text: &[u8]) -> Result<Board, BoardFault>
    ensures read { IfOk result (IsAmazonsBoard text.now) }
    ensures refused { IfErr result (IsNoAmazonsBoard text.now) }
    ensures no_memory { IfErr result (λ fault. fault ≢ BoardFault.Memory) }
{
    read_grid(alloc, text, b".xo#", false)
}

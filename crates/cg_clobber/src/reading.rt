//! Boards of Clobber read from texts.
ghost use Rattle.std.specs.Prelude.{◌≡◌, ◌≢◌, ◌⊎◌, true, Ok, Err, IfErr, IfOk, codes, false};
ghost use Rattle.cg_moves.specs.Grid.{IsGrid};
ghost use Rattle.cg_moves.specs.Texts.{read_of};
ghost use Rattle.cg_clobber.specs.Moves.{clobber};

use cg_moves::{Board, BoardFault, read_grid};
use std::alloc::Global;

/// The board of the text, in which the symbols stand row by row, with a bar between rows. The refusals are those of
/// [`read_grid`]. It takes no memory.
pub fn read(alloc: Global, text: &[u8]) -> Result<Board, BoardFault>
    ensures read { IfOk result (λ board. read_of (codes ".xo") false text.now ≡ Ok board) }
    ensures has { IfOk result (λ board. clobber.has board ≡ true) }
    ensures grid { IfOk result IsGrid }
    ensures refused { IfErr result (λ fault. (fault ≡ BoardFault.Memory) ⊎ (read_of (codes ".xo") false text.now ≡ Err fault)) }
    ensures no_memory { IfErr result (λ fault. fault ≢ BoardFault.Memory) }
{
    read_grid(alloc, text, b".xo", false)
}

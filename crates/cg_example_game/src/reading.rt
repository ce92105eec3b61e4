//! Strips of Shove read from texts.
ghost use Rattle.std.specs.Prelude.{◌≡◌, Err, IfErr, IfOk, Ok, codes, true};
ghost use Rattle.cg_moves.specs.Texts.{read_of};
ghost use Rattle.cg_example_game.specs.Shove.{shove};

use cg_moves::{Board, BoardFault, read_grid};
use std::alloc::Global;

/// The strip of the text, a symbol for each cell. The refusals are those of [`read_grid`]. It takes no memory.
pub fn read(alloc: Global, text: &[u8]) -> Result<Board, BoardFault>
    ensures read { IfOk result (λ board. read_of (codes ".xo") true text.now ≡ Ok board) }
    ensures has { IfOk result (λ board. shove.has board ≡ true) }
    ensures refused { IfErr result (λ fault. read_of (codes ".xo") true text.now ≡ Err fault) }
{
    read_grid(alloc, text, b".xo", true)
}

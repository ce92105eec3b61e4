//! Toads and Frogs.
ghost use Rattle.std.specs.Prelude.{◌≢◌, IfOk, IfErr};
ghost use Rattle.cg_strip.specs.ToadsBoards.{IsToadsBoard, IsNoToadsBoard};

use crate::hopping::hops;
use cg_moves::{Board, BoardFault, Boards, Pieces, Player, Rules, read_grid, risen};
use std::alloc::{AllocError, Global};
use std::mem;

/// Toads and Frogs: toads, which are Left's, step and jump to the right, and frogs, which are Right's, to the left.
#[derive(Clone, Copy, Debug, PartialEq, Eq)]
pub struct Toads;

impl Rules for Toads {
    ghost use Rattle.cg_strip.specs.Toads.{toads_game};

    ghost game = { λ _. toads_game };

    fn moves(&self, alloc: Global, board: &Board, player: Player) -> Result<Boards, AllocError> {
        let mut boards = Vec::new(alloc);
        hops(alloc, board, player, &mut boards)?;
        risen(alloc, board, boards)
    }

    fn moves_into(
        &self,
        alloc: Global,
        board: &Board,
        player: Player,
        room: &mut Vec<Board>,
    ) -> Result<(), AllocError> {
        hops(alloc, board, player, room)?;
        let boards = mem::replace(room, Vec::new(alloc));
        *room = risen(alloc, board, boards)?.into_vec();
        Ok(())
    }

    fn pieces(&self, _alloc: Global, _board: &Board) -> Result<Pieces, AllocError> {
        Ok(Pieces::Whole)
    }

    fn number(&self) -> u8 {
        4
    }

    fn lawful(&self) {}
}

/// The board of a text: one row of toads, frogs and empty cells. Where it is refused, it is for the first of the causes
/// by which any row of these symbols is. It takes no memory.
pub fn read_toads(alloc: Global, text: &[u8]) -> Result<Board, BoardFault>
    ensures read { IfOk result (IsToadsBoard text.now) }
    ensures refused { IfErr result (IsNoToadsBoard text.now) }
    ensures no_memory { IfErr result (λ fault. fault ≢ BoardFault.Memory) }
{
    read_grid(alloc, text, b".TF", true)
}

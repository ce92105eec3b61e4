//! The moves of strip games.
ghost use Rattle.std.specs.Prelude.{◌≡◌};

use crate::placing::boards_of;
use crate::strip::Strip;
use cg_moves::{Board, Boards, Pieces, Player, Rules, risen};
use std::alloc::{AllocError, Global};

impl Rules for Strip {
    ghost use Rattle.cg_strip.specs.StripGame.{strip_game};

    ghost game = { strip_game };

    fn moves(&self, alloc: Global, board: &Board, player: Player) -> Result<Boards, AllocError> {
        let boards = boards_of(alloc, board, self.rules(), player)?;
        risen(alloc, board, boards)
    }

    fn pieces(&self, _alloc: Global, _board: &Board) -> Result<Pieces, AllocError> {
        Ok(Pieces::Whole)
    }

    fn number(&self) -> u8 {
        0
    }

    fn lawful(&self) {}
}

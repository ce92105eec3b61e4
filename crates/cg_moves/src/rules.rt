//! The rules of games on boards.
ghost use Rattle.std.specs.Prelude.{◌≡◌, ◌<◌, ◌++◌, true, IfOk, length, map};
ghost use Rattle.std.specs.List.{flat_map};
ghost use Rattle.cg_moves.specs.Cutting.{cutting};
ghost use Rattle.cg_moves.specs.Grid.{AreAlike, Grid};
ghost use Rattle.cg_moves.specs.Lawful.{IsLawful};
ghost use Rattle.cg_moves.specs.Rules.{GameRules, In, boards_after, cuts, pieces};

use crate::pushing::{push, push_count};
use crate::{Board, Boards, Pieces, Player};
use std::alloc::{AllocError, Global};

/// Puts equal boards behind the others.
fn append(alloc: Global, boards: &[Board], room: &mut Vec<Board>) -> Result<(), AllocError>
    ensures { IfOk result (λ _. room.new.items ≡ room.old.items ++ boards.now) }
{
    for board in boards {
        push(room, board.copy(alloc)?)?;
    }
    Ok(())
}

/// The rules of a game, by what contracts see of them: which boards are boards of the game; the moves of each player on
/// a board, by the cells that they lead to; a measure of boards; the game's number; and where the rules cut boards into
/// pieces, the pieces of each board.
///
/// Their laws: each move of a board of the game leads to a board of the game with a lower measure. Rows, columns and
/// symbols stay. The number is below 16, and 0 where positions aren't noted in a table. Where the rules cut, each piece
/// of a board of the game is a board of the game with the same symbols and at most the same measure, has a move, and is
/// its own only piece; and each board is the sum of its pieces, up to equality of games. What is worth 0 need not be in
/// any piece. The law function `cut_by_moves` gives the sum where each move of a board is a move in one piece that
/// leaves the others as they are.
pub trait Rules {
    ghost game: { Self → GameRules };

    /// The boards that the player's moves lead to, in the order of the moves. The board must be one of the game.
    fn moves(&self, alloc: Global, board: &Board, player: Player) -> Result<Boards, AllocError>
        requires { (game self.now).has board.now ≡ true }
        ensures { IfOk result (λ boards. boards ≡ boards_after (game self.now) player board.now) };

    /// Puts the boards that the player's moves lead to, in the order of the moves, into the room, in the place of those
    /// that are there. The board must be one of the game.
    fn moves_into(
        &self,
        alloc: Global,
        board: &Board,
        player: Player,
        room: &mut Vec<Board>,
    ) -> Result<(), AllocError>
        requires { (game self.now).has board.now ≡ true }
        ensures { IfOk result (λ _. room.new.items ≡ boards_after (game self.now) player board.now) }
    {
        *room = self.moves(alloc, board, player)?.into_vec();
        Ok(())
    }

    /// The pieces of the board where the rules cut, and `Whole` where they don't. The board must be one of the game.
    fn pieces(&self, alloc: Global, board: &Board) -> Result<Pieces, AllocError>
        requires { (game self.now).has board.now ≡ true }
        ensures { IfOk result (λ pieces. pieces ≡ cutting (game self.now) board.now) };

    /// Where the rules cut, puts the pieces of the board, in order, into the room, in the place of the boards that are
    /// there. Where they don't, nothing is said of the room. The board must be one of the game.
    fn pieces_into(
        &self,
        alloc: Global,
        board: &Board,
        room: &mut Vec<Board>,
    ) -> Result<(), AllocError>
        requires { (game self.now).has board.now ≡ true }
        ensures { cuts (game self.now) ≡ true → IfOk result (λ _. room.new.items ≡ pieces (game self.now) board.now) }
    {
        match self.pieces(alloc, board)? {
            Pieces::Cut(boards) => *room = boards.into_vec(),
            Pieces::Whole => {}
        }
        Ok(())
    }

    /// Where the rules cut, puts the pieces of the boards, board by board, into the room, in place of the boards there,
    /// and how many each board has behind the counts. Where they don't, nothing is said of the room and the counts.
    /// The boards must be boards of the game that differ in their cells alone.
    fn pieces_of_all_into(
        &self,
        alloc: Global,
        boards: &[Board],
        room: &mut Vec<Board>,
        counts: &mut Vec<u32>,
    ) -> Result<(), AllocError>
        requires has { (q : Grid) → In q boards.now → (game self.now).has q ≡ true }
        requires alike { AreAlike boards.now }
        ensures pieces { cuts (game self.now) ≡ true
            → IfOk result (λ _. room.new.items ≡ flat_map (pieces (game self.now)) boards.now) }
        ensures counts { cuts (game self.now) ≡ true → IfOk result (λ _. counts.new.items
            ≡ counts.old.items ++ map (λ q. length (pieces (game self.now) q)) boards.now) }
    {
        let mut own = Vec::new(alloc);
        room.clear();
        for board in boards {
            self.pieces_into(alloc, board, &mut own)?;
            push_count(counts, own.len())?;
            append(alloc, &own, room)?;
        }
        Ok(())
    }

    /// The game's number.
    fn number(&self) -> u8
        ensures { result ≡ (game self.now).number };

    /// The laws of the rules hold. Nothing runs: the contract alone says so.
    fn lawful(&self)
        ensures { IsLawful (game self.now) };
}

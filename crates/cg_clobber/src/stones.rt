//! The moves of Clobber.
ghost use Rattle.std.specs.Prelude.{◌≡◌, ◌++◌, [], IfOk, length, map, refl, true};
ghost use Rattle.std.specs.List.{flat_map};
ghost use Rattle.cg_moves.specs.Grid.{with_cells};
ghost use Rattle.cg_moves.specs.Rising.{counted};
ghost use Rattle.cg_clobber.specs.CaptureWords.{AreCaptureWords};
ghost use Rattle.cg_clobber.specs.Moves.{clobber, stones};
ghost use Rattle.cg_clobber.specs.Pairs.{by_pairs, onward, paired, toward_back};

use crate::capturing::{captures_of, moving_stones};
use crate::putting::{CaptureWords, put_onward, put_toward};
use cg_moves::words::with_bit;
use cg_moves::{Board, Boards, Pieces, Player, Rules};
use cg_pieces::{NeighbourRules, pieces, pieces_into, pieces_of_all_into};
use std::alloc::{AllocError, Global};

/// The rules of Clobber. The symbols are `.` for an empty cell, `x` for a stone of Left and `o` for one of Right. A
/// player moves a stone onto a neighbouring one of the other player, which is removed.
pub struct Clobber;

/// Appends the boards after the player's moves from each cell onto later ones, from the first cell on.
fn put_all_onward(
    board: &Board,
    player: Player,
    words: &CaptureWords,
    boards: &mut Vec<Board>,
) -> Result<(), AllocError>
    requires has { clobber.has board.now ≡ true }
    requires words { AreCaptureWords player board.now words.now }
    ensures { IfOk result (λ _. boards.new.items ≡ boards.old.items
        ++ map (with_cells board.now) (flat_map (onward player board.now) (counted 0 (length board.now.cells)))) }
{
    let mut left = words.down | words.forth;
    while left != 0 {
        let cell = left.trailing_zeros() as u8;
        left = with_bit(left, cell, 0);
        put_onward(board, player, cell, words, boards)?;
    }
    Ok(())
}

/// Appends the boards after the player's moves onto each cell from later ones, from the last cell on.
fn put_all_toward(
    board: &Board,
    player: Player,
    words: &CaptureWords,
    boards: &mut Vec<Board>,
) -> Result<(), AllocError>
    requires has { clobber.has board.now ≡ true }
    requires words { AreCaptureWords player board.now words.now }
    ensures { IfOk result (λ _. boards.new.items ≡ boards.old.items
        ++ map (with_cells board.now) (flat_map (toward_back player board.now) (counted 0 (length board.now.cells)))) }
{
    let mut left = words.from_below | words.from_next;
    while left != 0 {
        let cell = 63 - left.leading_zeros() as u8;
        left = with_bit(left, cell, 0);
        put_toward(board, player, cell, words, boards)?;
    }
    Ok(())
}

/// Appends the boards after the player's moves between each cell and later ones, from the first cell on.
fn put_all_paired(
    board: &Board,
    player: Player,
    words: &CaptureWords,
    boards: &mut Vec<Board>,
) -> Result<(), AllocError>
    requires has { clobber.has board.now ≡ true }
    requires words { AreCaptureWords player board.now words.now }
    ensures { IfOk result (λ _. boards.new.items ≡ boards.old.items
        ++ map (with_cells board.now) (flat_map (paired player board.now) (counted 0 (length board.now.cells)))) }
{
    let mut left = (words.down | words.forth) | (words.from_below | words.from_next);
    while left != 0 {
        let cell = left.trailing_zeros() as u8;
        left = with_bit(left, cell, 0);
        put_onward(board, player, cell, words, boards)?;
        put_toward(board, player, cell, words, boards)?;
    }
    Ok(())
}

/// Puts the boards after the player's moves, by the first of the two cells that a move changes, in the place of these
/// boards. They are in rising order: a move of Left lowers this cell or raises it, and one of Right lowers it.
fn boards_in(board: &Board, player: Player, boards: &mut Vec<Board>) -> Result<(), AllocError>
    requires { clobber.has board.now ≡ true }
    ensures { IfOk result (λ _. boards.new.items ≡ map (with_cells board.now) (by_pairs player board.now)) }
{
    let words = captures_of(board, player);
    boards.clear();
    match player {
        Player::Left => {
            put_all_onward(board, player, &words, boards)?;
            put_all_toward(board, player, &words, boards)
        }
        Player::Right => put_all_paired(board, player, &words, boards),
    }
}

impl NeighbourRules for Clobber {
    ghost neighbours = { λ rules. stones };

    fn blank_index(&self) -> u8 {
        0
    }

    fn piece_cells(&self, board: &Board) -> u64 {
        let planes = board.planes();
        planes.a | planes.b
    }

    fn moving_cells(&self, board: &Board, _cells: u64, first_column: u64) -> u64 {
        moving_stones(board, first_column)
    }

    ghost lawful = { λ rules. record { blank = refl; past = refl } };
}

impl Rules for Clobber {
    ghost game = { λ rules. clobber };

    fn moves(&self, alloc: Global, board: &Board, player: Player) -> Result<Boards, AllocError> {
        let mut boards = Vec::new(alloc);
        boards_in(board, player, &mut boards)?;
        Ok(Boards::of(boards))
    }

    fn moves_into(
        &self,
        _alloc: Global,
        board: &Board,
        player: Player,
        room: &mut Vec<Board>,
    ) -> Result<(), AllocError> {
        boards_in(board, player, room)
    }

    fn pieces(&self, alloc: Global, board: &Board) -> Result<Pieces, AllocError> {
        Ok(Pieces::Cut(pieces(alloc, self, board)?))
    }

    fn pieces_into(
        &self,
        _alloc: Global,
        board: &Board,
        room: &mut Vec<Board>,
    ) -> Result<(), AllocError> {
        pieces_into(self, board, room)
    }

    fn pieces_of_all_into(
        &self,
        _alloc: Global,
        boards: &[Board],
        room: &mut Vec<Board>,
        counts: &mut Vec<u32>,
    ) -> Result<(), AllocError> {
        pieces_of_all_into(self, boards, room, counts)
    }

    fn number(&self) -> u8 {
        2
    }

    fn lawful(&self) {}
}

//! Boards after captures, put behind other boards.
ghost use Rattle.std.specs.Prelude.{◌≡◌, ◌+◌, ◌++◌, ◌<◌, ◌≤◌, IfOk, Some, codes, length, map, true};
ghost use Rattle.cg_moves.specs.Grid.{with_cells};
ghost use Rattle.cg_moves.specs.PlaneBits.{IsWithIndex, index_of};
ghost use Rattle.cg_moves.specs.Words.{Marks};
ghost use Rattle.cg_clobber.specs.CaptureWords.{AreCaptureWords};
ghost use Rattle.cg_clobber.specs.Moves.{captures_that_way, clobber, moves_that_way, next_cell, own, with_capture};
ghost use Rattle.cg_clobber.specs.Pairs.{onward, toward};

use crate::Way;
use cg_moves::words::{bit, with_bit};
use cg_moves::{Board, Planes, Player, push};
use std::alloc::AllocError;

/// The player's captures in each way, as words.
#[derive(Drop)]
pub(crate) struct CaptureWords {
    /// The stones that capture on the cell below.
    pub(crate) down: u64,
    /// On the next cell in the row.
    pub(crate) forth: u64,
    /// The cells on which the stone below captures.
    pub(crate) from_below: u64,
    /// On which the stone on the next cell in the row captures.
    pub(crate) from_next: u64,
}

/// The cell onto which the player's stone on this cell captures that way.
#[inline(always)]
fn captured(board: &Board, player: Player, from: u8, way: Way) -> u8
    requires from { from < length board.now.cells }
    requires captures { captures_that_way player board.now way from ≡ true }
    ensures value { next_cell way board.now from ≡ Some result }
    ensures inside { result < length board.now.cells }
{
    // Read for the proof alone: the stone is the player's, and the board has few cells.
    let _ = player;
    let _size = board.size();
    match way {
        Way::Up => from - board.columns(),
        Way::Down => from + board.columns(),
        Way::Back => from - 1,
        Way::Forth => from + 1,
    }
}

/// The words with the cell empty: its index is 0.
#[inline(always)]
fn emptied(planes: Planes, cell: u8) -> Planes
    requires { cell < 64 }
    ensures { IsWithIndex planes result cell 0 }
{
    Planes {
        a: with_bit(planes.a, cell, 0),
        b: with_bit(planes.b, cell, 0),
        c: with_bit(planes.c, cell, 0),
        d: with_bit(planes.d, cell, 0),
    }
}

/// The words with the player's stone on the cell: the index of `x` is 1, and that of `o` is 2.
#[inline(always)]
fn with_stone(planes: Planes, cell: u8, player: Player) -> Planes
    requires { cell < 64 }
    ensures { IsWithIndex planes result cell (index_of (codes ".xo") (own player)) }
{
    let clear = emptied(planes, cell);
    match player {
        Player::Left => Planes {
            a: with_bit(clear.a, cell, 1),
            b: clear.b,
            c: clear.c,
            d: clear.d,
        },
        Player::Right => Planes {
            a: clear.a,
            b: with_bit(clear.b, cell, 1),
            c: clear.c,
            d: clear.d,
        },
    }
}

#[inline(always)]
fn moved(board: &Board, player: Player, from: u8, onto: u8) -> Board
    requires has { clobber.has board.now ≡ true }
    requires from { from < length board.now.cells }
    requires onto { onto < length board.now.cells }
    ensures { result ≡ with_cells board.now (with_capture player board.now from onto) }
{
    let planes = board.planes();
    let left = emptied(planes, from);
    let both = with_stone(left, onto, player);
    board.with_planes(board.rows(), board.columns(), both)
}

/// Appends the board after the stone on this cell captures that way.
#[inline(never)]
fn put_capture(
    board: &Board,
    player: Player,
    from: u8,
    way: Way,
    boards: &mut Vec<Board>,
) -> Result<(), AllocError>
    requires has { clobber.has board.now ≡ true }
    requires from { from < length board.now.cells }
    requires captures { captures_that_way player board.now way from ≡ true }
    ensures { IfOk result (λ _. boards.new.items ≡
        boards.old.items ++ map (with_cells board.now) (moves_that_way player board.now from way)) }
{
    let onto = captured(board, player, from, way);
    push(boards, moved(board, player, from, onto))?;
    Ok(())
}

/// Appends the board after the stone on this cell captures that way, if it does.
#[inline(always)]
fn put_move(
    board: &Board,
    player: Player,
    from: u8,
    way: Way,
    word: u64,
    boards: &mut Vec<Board>,
) -> Result<(), AllocError>
    requires has { clobber.has board.now ≡ true }
    requires from { from < length board.now.cells }
    requires few { length board.now.cells ≤ 64 }
    requires word { Marks word (captures_that_way player board.now way) }
    ensures { IfOk result (λ _. boards.new.items ≡
        boards.old.items ++ map (with_cells board.now) (moves_that_way player board.now from way)) }
{
    if bit(word, from) == 0 {
        Ok(())
    } else {
        put_capture(board, player, from, way, boards)
    }
}

/// Puts the boards after the player's moves from this cell onto the one below it and the next one in its row behind the
/// boards, in rising order.
pub(crate) fn put_onward(
    board: &Board,
    player: Player,
    cell: u8,
    words: &CaptureWords,
    boards: &mut Vec<Board>,
) -> Result<(), AllocError>
    requires has { clobber.has board.now ≡ true }
    requires cell { cell < length board.now.cells }
    requires few { length board.now.cells ≤ 64 }
    requires words { AreCaptureWords player board.now words.now }
    ensures { IfOk result (λ _. boards.new.items ≡
        boards.old.items ++ map (with_cells board.now) (onward player board.now cell)) }
{
    match player {
        Player::Left => {
            put_move(board, player, cell, Way::Down, words.down, boards)?;
            put_move(board, player, cell, Way::Forth, words.forth, boards)
        }
        Player::Right => {
            put_move(board, player, cell, Way::Forth, words.forth, boards)?;
            put_move(board, player, cell, Way::Down, words.down, boards)
        }
    }
}

/// Appends the board after the stone so many cells after this one captures that way, if it does.
#[inline(always)]
fn put_move_from(
    board: &Board,
    player: Player,
    cell: u8,
    by: u8,
    way: Way,
    word: u64,
    boards: &mut Vec<Board>,
) -> Result<(), AllocError>
    requires has { clobber.has board.now ≡ true }
    requires cell { cell < 64 }
    requires by { by ≤ 64 }
    requires word { Marks word (λ c. captures_that_way player board.now way (c + by)) }
    ensures { IfOk result (λ _. boards.new.items ≡
        boards.old.items ++ map (with_cells board.now) (moves_that_way player board.now (cell + by) way)) }
{
    if bit(word, cell) == 0 {
        Ok(())
    } else {
        put_capture(board, player, cell + by, way, boards)
    }
}

/// Puts the boards after the player's moves onto this cell from the next one in its row and from the one below it
/// behind the boards, in rising order.
pub(crate) fn put_toward(
    board: &Board,
    player: Player,
    cell: u8,
    words: &CaptureWords,
    boards: &mut Vec<Board>,
) -> Result<(), AllocError>
    requires has { clobber.has board.now ≡ true }
    requires cell { cell < length board.now.cells }
    requires few { length board.now.cells ≤ 64 }
    requires words { AreCaptureWords player board.now words.now }
    ensures { IfOk result (λ _. boards.new.items ≡
        boards.old.items ++ map (with_cells board.now) (toward player board.now cell)) }
{
    // Read for the proof alone: the board has its cells in rows and columns.
    let _size = board.size();
    let columns = board.columns();
    put_move_from(board, player, cell, 1, Way::Back, words.from_next, boards)?;
    put_move_from(
        board,
        player,
        cell,
        columns,
        Way::Up,
        words.from_below,
        boards,
    )
}

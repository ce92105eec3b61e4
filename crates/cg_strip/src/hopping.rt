//! The hops of toads and frogs.
ghost use Rattle.std.specs.Prelude.{◌≡◌, ◌+◌, ◌++◌, ◌<◌, ◌≤◌, ◌==◌, ◌∷◌, []};
ghost use Rattle.std.specs.Prelude.{Contains, IfOk, codes, cond, length, map, true};
ghost use Rattle.std.specs.Int.{bit_at};
ghost use Rattle.cg_moves.specs.Grid.{AreCells, with_cells};
ghost use Rattle.cg_moves.specs.PlaneBits.{index_of};
ghost use Rattle.cg_strip.specs.Placing.{written};
ghost use Rattle.cg_strip.specs.Hops.{AreHopWords, hops_at, hops_below, hops_made};
ghost use Rattle.cg_strip.specs.Toads.{toads_game};

use cg_moves::words::{bit, moved_back};
use cg_moves::{Board, Player};
use std::alloc::{AllocError, Global};

/// The player's hops in words, by the first of the cells that a hop changes.
#[derive(Clone, Copy)]
pub(crate) struct HopWords {
    /// Where a step onto the next cell begins.
    pub(crate) steps: u64,
    /// Where a jump over one cell begins.
    pub(crate) jumps: u64,
}

fn hop_words(board: &Board, player: Player) -> HopWords
    requires { toads_game.has board.now ≡ true }
    ensures { AreHopWords player board.now.cells result }
{
    let toads = board.places(b'T');
    let frogs = board.places(b'F');
    let empty = board.places(b'.');
    match player {
        Player::Left => {
            let beside = moved_back(empty, 1);
            let over = moved_back(frogs, 1);
            let beyond = moved_back(empty, 2);
            HopWords {
                steps: toads & beside,
                jumps: toads & over & beyond,
            }
        }
        Player::Right => {
            let beside = moved_back(frogs, 1);
            let over = moved_back(toads, 1);
            let beyond = moved_back(frogs, 2);
            HopWords {
                steps: empty & beside,
                jumps: empty & over & beyond,
            }
        }
    }
}

/// The index of the symbol on a board of toads and frogs.
#[inline(always)]
fn index_of(symbol: u8) -> u8
    requires { Contains (codes ".TF") symbol }
    ensures value { result ≡ index_of (codes ".TF") symbol }
    ensures few { result < 16 }
{
    match symbol {
        b'.' => 0,
        b'T' => 1,
        _ => 2,
    }
}

/// The board with the replacement at this cell and those that follow.
#[inline(always)]
fn hopped(alloc: Global, board: &Board, replacement: &[u8], cell: u8) -> Result<Board, AllocError>
    requires has { toads_game.has board.now ≡ true }
    requires fits { cell + length replacement.now ≤ length board.now.cells }
    requires symbols { AreCells board.now.symbols replacement.now }
    ensures { IfOk result (λ after. after ≡ with_cells board.now (written board.now.cells replacement.now cell)) }
{
    // Read for the proof alone: the board has at most 64 cells.
    let _size = board.size();
    let mut after = board.copy(alloc)?;
    for (offset, symbol) in replacement.iter().enumerate() {
        after.set_known(cell + offset as u8, *symbol, index_of(*symbol));
    }
    Ok(after)
}

/// Appends the board with the replacement at this cell, if the cell is one of the places.
#[inline(always)]
fn put_hop(
    alloc: Global,
    board: &Board,
    places: u64,
    replacement: &[u8],
    cell: u8,
    boards: &mut Vec<Board>,
) -> Result<(), AllocError>
    requires has { toads_game.has board.now ≡ true }
    requires few { cell < 64 }
    requires fits { bit_at places cell ≡ 1 → cell + length replacement.now ≤ length board.now.cells }
    requires symbols { AreCells board.now.symbols replacement.now }
    ensures { IfOk result (λ _. boards.new.items ≡ boards.old.items ++ map (with_cells board.now)
        (cond (bit_at places cell == 1) (written board.now.cells replacement.now cell ∷ []) [])) }
{
    if bit(places, cell) == 1 {
        let after = hopped(alloc, board, replacement, cell)?;
        boards.push(after)?;
    }
    Ok(())
}

/// Appends the boards after the player's hops at this cell.
fn put_hops_at(
    alloc: Global,
    board: &Board,
    player: Player,
    words: HopWords,
    cell: u8,
    boards: &mut Vec<Board>,
) -> Result<(), AllocError>
    requires has { toads_game.has board.now ≡ true }
    requires words { AreHopWords player board.now.cells words }
    requires cell { cell < length board.now.cells }
    ensures { IfOk result (λ _. boards.new.items ≡
        boards.old.items ++ map (with_cells board.now) (hops_at player board.now.cells cell)) }
{
    // Read for the proof alone: the board has at most 64 cells.
    let _size = board.size();
    match player {
        Player::Left => {
            put_hop(alloc, board, words.steps, b".T", cell, boards)?;
            put_hop(alloc, board, words.jumps, b".FT", cell, boards)
        }
        Player::Right => {
            put_hop(alloc, board, words.steps, b"F.", cell, boards)?;
            put_hop(alloc, board, words.jumps, b"FT.", cell, boards)
        }
    }
}

/// Replaces `boards` by the boards after the player's hops, from the first cell on.
fn hops_on(
    alloc: Global,
    board: &Board,
    player: Player,
    boards: &mut Vec<Board>,
) -> Result<(), AllocError>
    requires { toads_game.has board.now ≡ true }
    ensures { IfOk result (λ _. boards.new.items ≡
        map (with_cells board.now) (hops_below player board.now.cells (length board.now.cells))) }
{
    // Read for the proof alone: the board has at most 64 cells.
    let _size = board.size();
    let words = hop_words(board, player);
    boards.clear();
    let all = words.steps | words.jumps;
    let mut next = 0;
    let mut left = moved_back(all, next);
    while left != 0 {
        let cell = next + left.trailing_zeros() as u8;
        put_hops_at(alloc, board, player, words, cell, boards)?;
        next = cell + 1;
        left = moved_back(all, next);
    }
    Ok(())
}

/// Puts the boards after the player's hops in the place of these boards: Left's from the first cell on, and Right's
/// from the last one back, so that they rise.
pub(crate) fn hops(
    alloc: Global,
    board: &Board,
    player: Player,
    boards: &mut Vec<Board>,
) -> Result<(), AllocError>
    requires { toads_game.has board.now ≡ true }
    ensures { IfOk result (λ _. boards.new.items ≡ map (with_cells board.now) (hops_made player board.now.cells)) }
{
    hops_on(alloc, board, player, boards)?;
    match player {
        Player::Left => Ok(()),
        Player::Right => {
            boards.reverse();
            Ok(())
        }
    }
}

//! Rules placed on a row.
ghost use Rattle.std.specs.Prelude.{◌≡◌, ◌+◌, ◌++◌, ◌<◌, ◌≤◌, ◌==◌, [], ◌∷◌, cond, length, map, All, IfOk};
ghost use Rattle.std.specs.Int.{bit_at};
ghost use Rattle.std.specs.List.{flat_map};
ghost use Rattle.cg_moves.specs.Grid.{AreCells, with_cells};
ghost use Rattle.cg_moves.specs.Words.{Marks};
ghost use Rattle.cg_strip.specs.Placing.{IsChange, IsRuleOver, all_placed, is_same_player};
ghost use Rattle.cg_strip.specs.Placing.{placements, stands_at, written};

use crate::rule::Rule;
use cg_moves::words::{all_cells, bit, moved_back};
use cg_moves::{Board, Player};
use std::alloc::{AllocError, Global};

/// The cells at which the pattern stands on the board: bit i is 1 exactly where it stands at cell i and those that
/// follow.
fn standing(board: &Board, pattern: &[u8]) -> u64
    requires { AreCells board.now.symbols pattern.now }
    ensures { Marks result (stands_at board.now.cells pattern.now) }
{
    let size = board.size();
    if pattern.len() > size as usize {
        return 0;
    }
    let mut places = all_cells(size);
    for (offset, symbol) in pattern.iter().enumerate() {
        let next = board.places(*symbol);
        let moved = moved_back(next, offset as u8);
        places &= moved;
    }
    places
}

/// The board with the replacement at this cell and those that follow.
fn written_at(
    alloc: Global,
    board: &Board,
    replacement: &[u8],
    cell: u8,
) -> Result<Board, AllocError>
    requires fits { cell + length replacement.now ≤ length board.now.cells }
    requires symbols { AreCells board.now.symbols replacement.now }
    ensures { IfOk result (λ after. after ≡ with_cells board.now (written board.now.cells replacement.now cell)) }
{
    // Read for the proof alone: the board has at most 64 cells.
    let _size = board.size();
    let mut after = board.copy(alloc)?;
    for (offset, symbol) in replacement.iter().enumerate() {
        after.set(cell + offset as u8, *symbol);
    }
    Ok(after)
}

/// Appends the board with the replacement at this cell, if the cell is one of the places.
fn place(
    alloc: Global,
    board: &Board,
    places: u64,
    replacement: &[u8],
    cell: u8,
    boards: &mut Vec<Board>,
) -> Result<(), AllocError>
    requires few { cell < 64 }
    requires fits { bit_at places cell ≡ 1 → cell + length replacement.now ≤ length board.now.cells }
    requires symbols { AreCells board.now.symbols replacement.now }
    ensures { IfOk result (λ _. boards.new.items ≡ boards.old.items ++ map (with_cells board.now)
        (cond (bit_at places cell == 1) (written board.now.cells replacement.now cell ∷ []) [])) }
{
    if bit(places, cell) == 1 {
        let after = written_at(alloc, board, replacement, cell)?;
        boards.push(after)?;
    }
    Ok(())
}

/// Puts the boards with the replacement at each cell where the pattern stands behind the boards.
pub fn place_all(
    alloc: Global,
    board: &Board,
    pattern: &[u8],
    replacement: &[u8],
    boards: &mut Vec<Board>,
) -> Result<(), AllocError>
    requires { IsChange board.now.symbols pattern.now replacement.now }
    ensures { IfOk result (λ _. boards.new.items ≡ boards.old.items
        ++ map (with_cells board.now) (all_placed pattern.now replacement.now board.now.cells)) }
{
    let places = standing(board, pattern);
    for cell in 0..board.size() {
        place(alloc, board, places, replacement, cell, boards)?;
    }
    Ok(())
}

fn is_same(player: Player, other: Player) -> bool
    ensures { result ≡ is_same_player player other }
{
    match player {
        Player::Left => matches!(other, Player::Left),
        Player::Right => matches!(other, Player::Right),
    }
}

/// The boards that the player's rules make of the board, rule by rule.
pub fn boards_of(
    alloc: Global,
    board: &Board,
    rules: &[Rule],
    player: Player,
) -> Result<Vec<Board>, AllocError>
    requires { All (IsRuleOver board.now.symbols) rules.now }
    ensures { IfOk result (λ boards. boards.items ≡
        map (with_cells board.now) (flat_map (placements player board.now.cells) rules.now)) }
{
    let mut boards = Vec::new(alloc);
    for rule in rules {
        if is_same(rule.player, player) {
            let pattern = rule.pattern.as_slice();
            let replacement = rule.replacement.as_slice();
            place_all(alloc, board, pattern, replacement, &mut boards)?;
        }
    }
    Ok(boards)
}

//! The pieces of a board.
ghost use Rattle.std.specs.Prelude.{◌≡◌, ◌++◌, ◌%◌, ◌==◌, ◌&&◌, IfOk, length, map, nat_lt};
ghost use Rattle.std.specs.List.{flat_map};
ghost use Rattle.cg_moves.specs.Grid.{AreAlike, Grid};
ghost use Rattle.cg_moves.specs.Rules.{In};
ghost use Rattle.cg_moves.specs.Words.{Marks};
ghost use Rattle.cg_pieces.specs.Cells.{pieces_of};
ghost use Rattle.cg_pieces.specs.Moving.{AreMoving, piece_at};
ghost use Rattle.cg_pieces.specs.Neighbours.{cell_game};
ghost use Rattle.cg_pieces.specs.Words.{IsTaken};

use crate::NeighbourRules;
use crate::field::field_of;
use crate::frame::crop;
use cg_moves::{Board, Boards, push, push_count};
use std::alloc::{AllocError, Global};

/// Appends the piece of this set, if some player has a move in it.
#[inline(always)]
fn put_piece<N: NeighbourRules>(
    rules: &N,
    board: &Board,
    first_column: u64,
    moving: u64,
    set: u64,
    cell: u8,
    boards: &mut Vec<Board>,
) -> Result<(), AllocError>
    requires symbols { board.now.symbols ≡ (N.neighbours rules.now).symbols }
    requires first { Marks first_column (λ i. nat_lt i (length board.now.cells) && (i % board.now.columns == 0)) }
    requires moving { AreMoving (N.neighbours rules.now) board.now moving }
    requires set { IsTaken (N.neighbours rules.now) board.now cell set }
    ensures { IfOk result (λ _. boards.new.items ≡
        boards.old.items ++ piece_at (N.neighbours rules.now) board.now cell) }
{
    if set & moving == 0 {
        return Ok(());
    }
    let blank = rules.blank_index();
    let piece = crop(board, first_column, set, cell, blank);
    push(boards, piece)?;
    Ok(())
}

/// Appends the pieces of the board as [`pieces`] lists them. `first_column` has the cells of its first column.
#[inline(always)]
fn append_pieces<N: NeighbourRules>(
    rules: &N,
    board: &Board,
    first_column: u64,
    room: &mut Vec<Board>,
) -> Result<(), AllocError>
    requires symbols { board.now.symbols ≡ (N.neighbours rules.now).symbols }
    requires first { Marks first_column (λ i. nat_lt i (length board.now.cells) && (i % board.now.columns == 0)) }
    ensures { IfOk result (λ _. room.new.items
        ≡ room.old.items ++ pieces_of (cell_game (N.neighbours rules.now)) board.now) }
{
    let cells = rules.piece_cells(board);
    let moving = rules.moving_cells(board, cells, first_column);
    let field = field_of(rules, board, cells, first_column);
    let mut left = cells;
    while left & moving != 0 {
        let cell = left.trailing_zeros() as u8;
        let set = field.joined(cell);
        put_piece(rules, board, first_column, moving, set, cell, room)?;
        left &= !set;
    }
    Ok(())
}

/// Makes the list that of the pieces of the board, as [`pieces`] lists them.
pub fn pieces_into<N: NeighbourRules>(
    rules: &N,
    board: &Board,
    room: &mut Vec<Board>,
) -> Result<(), AllocError>
    requires { board.now.symbols ≡ (N.neighbours rules.now).symbols }
    ensures { IfOk result (λ _. room.new.items ≡ pieces_of (cell_game (N.neighbours rules.now)) board.now) }
{
    room.clear();
    append_pieces(rules, board, board.first_column(), room)
}

/// Makes the list that of the pieces of the boards, board by board, as [`pieces`] lists them, and puts how many each
/// board has behind the counts. The boards must differ in their cells alone.
pub fn pieces_of_all_into<N: NeighbourRules>(
    rules: &N,
    boards: &[Board],
    room: &mut Vec<Board>,
    counts: &mut Vec<u32>,
) -> Result<(), AllocError>
    requires symbols { (q : Grid) → In q boards.now → q.symbols ≡ (N.neighbours rules.now).symbols }
    requires alike { AreAlike boards.now }
    ensures pieces { IfOk result
        (λ _. room.new.items ≡ flat_map (pieces_of (cell_game (N.neighbours rules.now))) boards.now) }
    ensures counts { IfOk result (λ _. counts.new.items
        ≡ counts.old.items ++ map (λ q. length (pieces_of (cell_game (N.neighbours rules.now)) q)) boards.now) }
{
    room.clear();
    let Some(first) = boards.first() else {
        return Ok(());
    };
    let first_column = first.first_column();
    for board in boards {
        // Read for the proof alone: the board has its cells in rows and columns.
        let _size = board.size();
        let before = room.len();
        append_pieces(rules, board, first_column, room)?;
        push_count(counts, room.len() - before)?;
    }
    Ok(())
}

/// The pieces of the board: for each joined set of cells that form pieces in which some player has a move, the board of
/// the rows and columns that bound it, with all other cells blank. They stand in the order of their first cells.
pub fn pieces<N: NeighbourRules>(
    alloc: Global,
    rules: &N,
    board: &Board,
) -> Result<Boards, AllocError>
    requires { board.now.symbols ≡ (N.neighbours rules.now).symbols }
    ensures { IfOk result (λ boards. boards ≡ pieces_of (cell_game (N.neighbours rules.now)) board.now) }
{
    let mut boards = Vec::new(alloc);
    pieces_into(rules, board, &mut boards)?;
    Ok(Boards::of(boards))
}

//! Boards read from texts.
ghost use Rattle.std.specs.Prelude.{◌≡◌, ◌≢◌, ◌⊎◌, ◌==◌, ◌||◌, not, ◌+◌, ◌≤◌, ◌<◌, true};
ghost use Rattle.std.specs.Prelude.{Ok, Err, IfErr, IfOk, length, position, drop, take};
ghost use Rattle.cg_moves.specs.Grid.{IsGrid, are_symbols};
ghost use Rattle.cg_moves.specs.Texts.{bar, cells_of, cut, first_row, is_foreign, ragged, read_of, rows_of};

use crate::{Board, BoardFault};
use std::alloc::Global;

const BAR: u8 = b'|';

/// Whether the byte is no symbol, nor a bar where the text is cut at bars.
fn is_foreign(one_row: bool, symbols: &[u8], byte: u8) -> bool
    ensures { result ≡ is_foreign one_row symbols.now byte }
{
    !(symbols.contains(&byte) || (!one_row && byte == BAR))
}

/// The index of the first byte that is foreign.
fn first_foreign(one_row: bool, symbols: &[u8], text: &[u8]) -> Option<usize>
    ensures { result ≡ position (is_foreign one_row symbols.now) text.now }
{
    text.iter()
        .position(|byte| is_foreign(one_row, symbols, *byte))
}

/// How long the first row is.
fn columns_in(one_row: bool, text: &[u8]) -> usize
    ensures { result ≡ length (first_row (rows_of one_row text.now)) }
{
    if one_row {
        return text.len();
    }
    let mut columns = 0;
    for byte in text {
        if *byte == BAR {
            return columns;
        }
        columns += 1;
    }
    columns
}

/// Whether the byte is a cell, and not a bar between rows.
fn is_cell(one_row: bool, byte: u8) -> bool
    ensures { result ≡ (one_row || not (byte == bar)) }
{
    one_row || byte != BAR
}

/// How many cells there are.
fn size_of(one_row: bool, text: &[u8]) -> usize
    ensures { result ≡ length (cells_of (rows_of one_row text.now)) }
{
    let mut size = 0;
    for byte in text {
        if one_row || *byte != BAR {
            size += 1;
        }
    }
    size
}

/// The cells, row by row, at the front of an array.
fn cells_in(one_row: bool, text: &[u8]) -> [u8; 64]
    requires { length (cells_of (rows_of one_row text.now)) ≤ 64 }
    ensures { take (length (cells_of (rows_of one_row text.now))) result ≡ cells_of (rows_of one_row text.now) }
{
    let mut cells = [0; 64];
    let mut size = 0;
    for byte in text {
        if !is_cell(one_row, *byte) {
            continue;
        }
        cells[size] = *byte;
        size += 1;
    }
    cells
}

/// The place of the first row that isn't as long as the first, where the text is cut at each bar.
fn first_ragged(text: &[u8], columns: usize) -> Option<u64>
    requires { columns ≡ length (first_row (cut text.now)) }
    ensures { result ≡ ragged columns 1 (cut text.now) }
{
    let mut later = None;
    let mut row = 0;
    let mut start = text.len();
    while start > 0 {
        start -= 1;
        if text[start] == BAR {
            if row != columns {
                later = Some(start as u64 + 2);
            }
            row = 0;
        } else {
            row += 1;
        }
    }
    later
}

/// The place of the first row that isn't as long as the first.
fn ragged_in(one_row: bool, text: &[u8], columns: usize) -> Option<u64>
    requires { columns ≡ length (first_row (rows_of one_row text.now)) }
    ensures { result ≡ ragged columns 1 (rows_of one_row text.now) }
{
    if one_row {
        return None;
    }
    first_ragged(text, columns)
}

/// The board of a text with these symbols: one row, in which a bar is a byte like others, or rows with a bar between
/// them. Places count bytes of the text from 1. The first of these that applies is the refusal.
///
/// `Symbol` comes at the first byte that is neither a symbol nor a bar between rows; `Empty(1)` where the first row has
/// no cell; `Ragged` at the start of the first row that isn't as long as the first; `Large` at the 65th cell. It takes
/// no memory, and there is no other fault.
pub fn read_grid(
    alloc: Global,
    text: &[u8],
    symbols: &[u8],
    one_row: bool,
) -> Result<Board, BoardFault>
    requires { are_symbols symbols.now ≡ true }
    ensures read { IfOk result (λ board. read_of symbols.now one_row text.now ≡ Ok board) }
    ensures symbols { IfOk result (λ board. board.symbols ≡ symbols.now) }
    ensures grid { IfOk result IsGrid }
    ensures refused { IfErr result (λ fault. (fault ≡ BoardFault.Memory) ⊎ (read_of symbols.now one_row text.now ≡ Err fault)) }
    ensures no_memory { IfErr result (λ fault. fault ≢ BoardFault.Memory) }
{
    if let Some(index) = first_foreign(one_row, symbols, text) {
        return Err(BoardFault::Symbol(index as u64 + 1));
    }
    let columns = columns_in(one_row, text);
    if columns == 0 {
        return Err(BoardFault::Empty(1));
    }
    if let Some(place) = ragged_in(one_row, text, columns) {
        return Err(BoardFault::Ragged(place));
    }
    let size = size_of(one_row, text);
    if size > 64 {
        return Err(BoardFault::Large(65 + 64 / columns as u64));
    }
    let cells = cells_in(one_row, text);
    let rows = size / columns;
    let board = Board::make(alloc, rows as u8, columns as u8, symbols, &cells[..size])?;
    // Read for the proof alone: each board is one.
    let _size = board.size();
    Ok(board)
}

//! Boards written as texts.
ghost use Rattle.std.specs.Prelude.{◌≡◌, ◌++◌, ◌*◌, ◌+◌, ◌<◌, ◌≤◌, All, IfOk, false, true, take, drop, length};
ghost use Rattle.std.specs.String.{string_bytes};
ghost use Rattle.cg_moves.specs.Texts.{ReadsBack, text_of};

use crate::Board;
use std::alloc::{AllocError, Global};

const BAR: char = '|';

/// Writes the row behind the text.
fn write_row(text: &mut String, row: &[u8]) -> Result<(), AllocError>
    requires { All (λ c. c < 128) row.now }
    ensures { IfOk result (λ _. string_bytes text.new ≡ string_bytes text.old ++ row.now) }
{
    for cell in row {
        text.push(char::from(*cell))?;
    }
    Ok(())
}

/// The text of the board: its rows with a bar between them. It reads back as the board; and where the board has one
/// row, it does so also as a text of one row, in which a bar is a byte like others.
pub fn text(alloc: Global, board: &Board) -> Result<String, AllocError>
    ensures text { IfOk result (λ text. string_bytes text ≡ text_of board.now) }
    ensures reads_back { IfOk result (λ text. ReadsBack board.now false (string_bytes text)) }
    ensures one_row { board.now.rows ≡ 1 → IfOk result (λ text. ReadsBack board.now true (string_bytes text)) }
{
    let cells = board.cells(alloc)?;
    let cells = cells.as_slice();
    let columns = usize::from(board.columns());
    let mut text = String::new(alloc);
    write_row(&mut text, &cells[..columns])?;
    for row in 1..usize::from(board.rows()) {
        text.push(BAR)?;
        write_row(&mut text, &cells[row * columns..row * columns + columns])?;
    }
    Ok(text)
}

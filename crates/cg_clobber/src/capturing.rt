//! Captures, in words.
ghost use Rattle.std.specs.Prelude.{◌≡◌, ◌%◌, ◌==◌, ◌&&◌, codes, length, nat_lt, true};
ghost use Rattle.cg_moves.specs.Words.{Marks};
ghost use Rattle.cg_clobber.specs.declared.way.Way.TheVariants.{Up, Down, Back, Forth};
ghost use Rattle.cg_clobber.specs.CaptureWords.{AreCaptureWords, AreStones};
ghost use Rattle.cg_clobber.specs.Moves.{captures_that_way, clobber, stones};
ghost use Rattle.cg_pieces.specs.Moving.{AreMoving};

use crate::Way;
use crate::putting::CaptureWords;
use cg_moves::words::{moved_back, moved_on};
use cg_moves::{Board, Player};

/// The stones on a board, by whose they are, with what tells which of them are adjacent.
#[derive(Clone, Copy)]
pub(crate) struct Stones {
    /// The player's stones.
    own: u64,
    /// The other player's stones.
    others: u64,
    /// The cells of the first column.
    first_column: u64,
    /// How many columns the board has.
    columns: u8,
}

/// The stones on the board, as the player sees them. The index of `x` is 1, and that of `o` is 2, so each has a word of
/// its own.
#[inline(always)]
fn stones_of(board: &Board, player: Player, first_column: u64) -> Stones
    requires symbols { board.now.symbols ≡ codes ".xo" }
    requires first { Marks first_column (λ i. nat_lt i (length board.now.cells) && (i % board.now.columns == 0)) }
    ensures { AreStones player board.now result }
{
    let planes = board.planes();
    let columns = board.columns();
    match player {
        Player::Left => Stones {
            own: planes.a,
            others: planes.b,
            first_column,
            columns,
        },
        Player::Right => Stones {
            own: planes.b,
            others: planes.a,
            first_column,
            columns,
        },
    }
}

fn captures_up(board: &Board, player: Player, stones: Stones) -> u64
    requires { AreStones player board.now stones }
    ensures { Marks result (captures_that_way player board.now Up) }
{
    // Read for the proof alone: the stones are the player's, and the board has few cells.
    let _ = player;
    let _size = board.size();
    let moved = moved_on(stones.others, stones.columns);
    stones.own & moved
}

fn captures_down(board: &Board, player: Player, stones: Stones) -> u64
    requires { AreStones player board.now stones }
    ensures { Marks result (captures_that_way player board.now Down) }
{
    // Read for the proof alone: the stones are the player's, and on this board.
    let _ = player;
    let _ = board;
    let moved = moved_back(stones.others, stones.columns);
    stones.own & moved
}

/// The player's stones that capture on the cell before, in their row.
fn captures_back(board: &Board, player: Player, stones: Stones) -> u64
    requires { AreStones player board.now stones }
    ensures { Marks result (captures_that_way player board.now Back) }
{
    // Read for the proof alone: the stones are the player's, and the board has few cells.
    let _ = player;
    let _size = board.size();
    let moved = moved_on(stones.others, 1);
    stones.own & moved & !stones.first_column
}

/// The player's stones that capture on the next cell of their row.
fn captures_forth(board: &Board, player: Player, stones: Stones) -> u64
    requires { AreStones player board.now stones }
    ensures { Marks result (captures_that_way player board.now Forth) }
{
    // Read for the proof alone: the stones are the player's, and on this board.
    let _ = player;
    let _ = board;
    let moved = moved_back(stones.others & !stones.first_column, 1);
    stones.own & moved
}

/// The stones with which some player has a capture together with the cell below or the next one in the row, whichever
/// of the two is the one that moves.
pub(crate) fn moving_stones(board: &Board, first_column: u64) -> u64
    requires symbols { board.now.symbols ≡ codes ".xo" }
    requires first { Marks first_column (λ i. nat_lt i (length board.now.cells) && (i % board.now.columns == 0)) }
    ensures { AreMoving stones board.now result }
{
    let xs = stones_of(board, Player::Left, first_column);
    let os = stones_of(board, Player::Right, first_column);
    let below = captures_down(board, Player::Left, xs) | captures_down(board, Player::Right, os);
    let beside = captures_forth(board, Player::Left, xs) | captures_forth(board, Player::Right, os);
    below | beside
}

/// The player's captures, by the first of the two cells that a move changes.
pub(crate) fn captures_of(board: &Board, player: Player) -> CaptureWords
    requires { clobber.has board.now ≡ true }
    ensures { AreCaptureWords player board.now result }
{
    let stones = stones_of(board, player, board.first_column());
    let up = captures_up(board, player, stones);
    let back = captures_back(board, player, stones);
    CaptureWords {
        down: captures_down(board, player, stones),
        forth: captures_forth(board, player, stones),
        from_below: moved_back(up, stones.columns),
        from_next: moved_back(back, 1),
    }
}

/// The player's captures that way: bit i is 1 exactly where a stone of the player stands on cell i and one of the other
/// player on the next cell that way. The board must be one of Clobber.
pub fn captures(board: &Board, player: Player, way: Way) -> u64
    requires { clobber.has board.now ≡ true }
    ensures { Marks result (captures_that_way player board.now way) }
{
    let stones = stones_of(board, player, board.first_column());
    match way {
        Way::Up => captures_up(board, player, stones),
        Way::Down => captures_down(board, player, stones),
        Way::Back => captures_back(board, player, stones),
        Way::Forth => captures_forth(board, player, stones),
    }
}

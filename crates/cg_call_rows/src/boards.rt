//! Rows of games on boards: a game, a call and the text of a board, with a blank between them. A strip game has its
//! rules in front of the row, and the call `rules` reads the rules alone; Col and Snort have the vertices in front of
//! the edges.
//!
//! - `read`, `copy`, `make`: the board, its copy, the board made anew of its cells
//! - `left`, `right`: the boards after the player's moves; a number: all boards that play can reach, up to that many
//! - `pieces`: the board's pieces; `pieces7`, `pieces8`: all that play can reach from them, up to that many
//! - `spots_left`, `spots_right` of Domineering, `left_up`, `right_forth` and so on of Clobber: cells as a word
//! - `rays` with a word of free cells, numbers of rows and columns and a cell: what a queen of Amazons reaches
ghost use Rattle.std.specs.Prelude.{◌≡◌, true};

use crate::text::cut;
use cg_amazons::{Amazons, rays};
use cg_clobber::{Clobber, Way, captures};
use cg_domineering::{Domineering, spots};
use cg_graph::{Colouring, Hackenbush};
use cg_moves::{Board, Boards, Pieces, Player, Rules, reach, reach_pieces, text};
use cg_strip::{Strip, Toads, read_toads};
use std::alloc::{AllocError, Global};

/// The texts of the boards, with a blank between them.
fn listed(alloc: Global, boards: &Boards) -> anyhow::Result<String> {
    let mut all = String::new(alloc);
    for (index, board) in boards.as_slice().iter().enumerate() {
        if index > 0 {
            all.push(' ')?;
        }
        let shown = text(alloc, board)?;
        all.push_str(shown.as_str())?;
    }
    Ok(all)
}

/// The pieces of the board; with a limit, all that play can reach from them, if they are within it.
fn in_pieces<R: Rules>(
    alloc: Global,
    rules: &R,
    board: &Board,
    limit: Option<u64>,
) -> anyhow::Result<String>
    requires { (R.game rules.now).has board.now ≡ true }
{
    match rules.pieces(alloc, board)? {
        Pieces::Whole => Ok(String::from_str(alloc, "whole")?),
        Pieces::Cut(pieces) => match limit {
            Some(limit) => listed(alloc, &reach_pieces(alloc, rules, board, limit)?),
            None => listed(alloc, &pieces),
        },
    }
}

fn made(alloc: Global, board: &Board) -> Result<String, AllocError> {
    let cells = board.cells(alloc)?;
    let rows = board.rows();
    let columns = board.columns();
    let board = Board::make(alloc, rows, columns, board.symbols(), cells.as_slice())?;
    text(alloc, &board)
}

fn on_board<R: Rules>(alloc: Global, rules: &R, board: &Board, call: &str) -> anyhow::Result<String>
    requires { (R.game rules.now).has board.now ≡ true }
{
    match call {
        "read" => Ok(text(alloc, board)?),
        "copy" => Ok(text(alloc, &board.copy(alloc)?)?),
        "make" => Ok(made(alloc, board)?),
        "left" => listed(alloc, &rules.moves(alloc, board, Player::Left)?),
        "right" => listed(alloc, &rules.moves(alloc, board, Player::Right)?),
        "pieces" => in_pieces(alloc, rules, board, None),
        "pieces7" => in_pieces(alloc, rules, board, Some(7)),
        "pieces8" => in_pieces(alloc, rules, board, Some(8)),
        _ => listed(alloc, &reach(alloc, rules, board, call.parse::<u64>()?)?),
    }
}

fn on_domineering(alloc: Global, call: &str, text: &str) -> anyhow::Result<String> {
    let board = cg_domineering::read(alloc, text.as_bytes())?;
    match call {
        "spots_left" => Ok(spots(&board, Player::Left).to_string(alloc)?),
        "spots_right" => Ok(spots(&board, Player::Right).to_string(alloc)?),
        _ => on_board(alloc, &Domineering, &board, call),
    }
}

/// Whose captures the call asks for, and in which way.
fn way_of(call: &str) -> Option<(Player, Way)> {
    match call {
        "left_up" => Some((Player::Left, Way::Up)),
        "left_down" => Some((Player::Left, Way::Down)),
        "left_back" => Some((Player::Left, Way::Back)),
        "left_forth" => Some((Player::Left, Way::Forth)),
        "right_up" => Some((Player::Right, Way::Up)),
        "right_down" => Some((Player::Right, Way::Down)),
        "right_back" => Some((Player::Right, Way::Back)),
        "right_forth" => Some((Player::Right, Way::Forth)),
        _ => None,
    }
}

fn on_clobber(alloc: Global, call: &str, text: &str) -> anyhow::Result<String> {
    let board = cg_clobber::read(alloc, text.as_bytes())?;
    match way_of(call) {
        Some((player, way)) => Ok(captures(&board, player, way).to_string(alloc)?),
        None => on_board(alloc, &Clobber, &board, call),
    }
}

/// What a queen reaches, by four numbers with a blank between them.
fn rays_of(text: &str) -> Option<u64> {
    let mut words = text.split(' ');
    let free = words.next()?.parse::<u64>().ok()?;
    let rows = words.next()?.parse::<u8>().ok()?;
    let columns = words.next()?.parse::<u8>().ok()?;
    let cell = words.next()?.parse::<u8>().ok()?;
    let size = rows as u16 * columns as u16;
    if size == 0 || size > 64 || cell as u16 >= size {
        return None;
    }
    Some(rays(free, rows, columns, cell))
}

fn on_strip(alloc: Global, call: &str, text: &str) -> anyhow::Result<String> {
    let (rules, row) = cut(text, ' ');
    let strip = Strip::read(alloc, rules.as_bytes())?;
    if call == "rules" {
        return Ok(String::from_str(alloc, "rules")?);
    }
    let board = strip.board(alloc, row.as_bytes())?;
    on_board(alloc, &strip, &board, call)
}

fn on_graph(alloc: Global, game: &str, call: &str, text: &str) -> anyhow::Result<String> {
    if game == "Hackenbush" {
        let drawing = Hackenbush::read(alloc, text.as_bytes())?;
        let board = drawing.board(alloc)?;
        return on_board(alloc, &drawing, &board, call);
    }
    let (vertices, edges) = cut(text, ' ');
    let graph = Colouring::read(
        alloc,
        game == "Snort",
        vertices.as_bytes(),
        edges.as_bytes(),
    )?;
    let board = graph.board(alloc)?;
    on_board(alloc, &graph, &board, call)
}

pub(crate) fn answer(alloc: Global, game: &str, rest: &str) -> anyhow::Result<String> {
    let (call, text) = cut(rest, ' ');
    match game {
        "Domineering" => on_domineering(alloc, call, text),
        "Clobber" => on_clobber(alloc, call, text),
        "Amazons" => {
            let board = cg_amazons::read(alloc, text.as_bytes())?;
            on_board(alloc, &Amazons, &board, call)
        }
        "Toads" => {
            let board = read_toads(alloc, text.as_bytes())?;
            on_board(alloc, &Toads, &board, call)
        }
        "Strip" => on_strip(alloc, call, text),
        "rays" => match rays_of(rest) {
            Some(word) => Ok(word.to_string(alloc)?),
            None => anyhow::bail!("no cell"),
        },
        _ => on_graph(alloc, game, call, text),
    }
}

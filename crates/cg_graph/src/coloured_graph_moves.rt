//! The moves of Col and Snort.
ghost use Rattle.std.specs.Prelude.{◌≡◌, ◌++◌, ◌<◌, IfOk, length, map, true};
ghost use Rattle.std.specs.List.{flat_map};
ghost use Rattle.cg_moves.specs.Grid.{with_cells};
ghost use Rattle.cg_moves.specs.Rising.{counted};
ghost use Rattle.cg_graph.specs.ColouredGraphs.{coloured_graph_rules, edges_of};
ghost use Rattle.cg_graph.specs.Colouring.{colourings_at, forbidden, may_colour, other, own};

use crate::coloured_graph::Colouring;
use crate::neighbours::has_neighbour;
use cg_moves::{Board, Boards, Pieces, Player, Rules, in_order};
use std::alloc::{AllocError, Global};

const FREE: u8 = b'.';

fn own(player: Player) -> u8
    ensures { result ≡ own player }
{
    match player {
        Player::Left => b'x',
        Player::Right => b'o',
    }
}

fn other(player: Player) -> u8
    ensures { result ≡ other player }
{
    match player {
        Player::Left => b'o',
        Player::Right => b'x',
    }
}

/// The colour that no neighbour may have: in Snort the other player's, in Col the player's own.
fn forbidden(snort: bool, player: Player) -> u8
    ensures { result ≡ forbidden snort player }
{
    if snort { other(player) } else { own(player) }
}

/// Whether the player may colour the vertex.
fn may_colour(coloured_graph: &Colouring, board: &Board, player: Player, vertex: u8) -> bool
    requires { vertex < length board.now.cells }
    ensures { result ≡ may_colour coloured_graph.now.snort (edges_of coloured_graph.now.edges) player board.now.cells vertex }
{
    let taboo = forbidden(coloured_graph.is_snort(), player);
    board.cell(vertex) == FREE && !has_neighbour(coloured_graph.pairs(), board, vertex, taboo)
}

/// Appends the board after the player colours this vertex, if the player may.
fn put_colour(
    alloc: Global,
    coloured_graph: &Colouring,
    board: &Board,
    player: Player,
    vertex: u8,
    boards: &mut Vec<Board>,
) -> Result<(), AllocError>
    requires has { (coloured_graph_rules coloured_graph.now).has board.now ≡ true }
    requires vertex { vertex < length board.now.cells }
    ensures { IfOk result (λ _. boards.new.items ≡ boards.old.items ++ map (with_cells board.now)
        (colourings_at coloured_graph.now.snort (edges_of coloured_graph.now.edges) player board.now.cells vertex)) }
{
    if !may_colour(coloured_graph, board, player, vertex) {
        return Ok(());
    }
    let mut after = board.copy(alloc)?;
    after.set(vertex, own(player));
    boards.push(after)?;
    Ok(())
}

fn boards_of(
    alloc: Global,
    coloured_graph: &Colouring,
    board: &Board,
    player: Player,
) -> Result<Vec<Board>, AllocError>
    requires { (coloured_graph_rules coloured_graph.now).has board.now ≡ true }
    ensures { IfOk result (λ boards. boards.items ≡ map (with_cells board.now)
        (flat_map (colourings_at coloured_graph.now.snort (edges_of coloured_graph.now.edges) player board.now.cells)
        (counted 0 (length board.now.cells)))) }
{
    let mut boards = Vec::new(alloc);
    for vertex in 0..board.size() {
        put_colour(alloc, coloured_graph, board, player, vertex, &mut boards)?;
    }
    Ok(boards)
}

impl Rules for Colouring {
    ghost game = { coloured_graph_rules };

    fn moves(&self, alloc: Global, board: &Board, player: Player) -> Result<Boards, AllocError> {
        let boards = boards_of(alloc, self, board, player)?;
        in_order(alloc, board, &boards)
    }

    fn pieces(&self, _alloc: Global, _board: &Board) -> Result<Pieces, AllocError> {
        Ok(Pieces::Whole)
    }

    fn number(&self) -> u8 {
        0
    }

    fn lawful(&self) {}
}

//! The moves of Hackenbush.
ghost use Rattle.std.specs.Prelude.{◌≡◌, ◌++◌, ◌<◌, All, IfOk, length, map, true};
ghost use Rattle.std.specs.List.{flat_map};
ghost use Rattle.cg_moves.specs.Grid.{with_cells};
ghost use Rattle.cg_moves.specs.Rising.{counted};
ghost use Rattle.cg_graph.specs.Drawings.{IsEdge, drawing_rules, graph_of};
ghost use Rattle.cg_graph.specs.Hackenbush.{cuts_at, may_cut};

use crate::drawing::Hackenbush;
use crate::edge::ColouredEdge;
use crate::labels::{GONE, settled};
use cg_moves::{Board, Boards, Pieces, Player, Rules, in_order};
use std::alloc::{AllocError, Global};

fn may_cut(player: Player, colour: u8) -> bool
    ensures { result ≡ may_cut player colour }
{
    match player {
        Player::Left => colour == b'b' || colour == b'g',
        Player::Right => colour == b'r' || colour == b'g',
    }
}

/// Appends the board after the player cuts this edge, if the player may.
fn put_cut(
    alloc: Global,
    edges: &[ColouredEdge],
    board: &Board,
    player: Player,
    index: u8,
    boards: &mut Vec<Board>,
) -> Result<(), AllocError>
    requires edges { All IsEdge edges.now }
    requires has { (drawing_rules edges.now).has board.now ≡ true }
    requires index { index < length board.now.cells }
    ensures { IfOk result (λ _. boards.new.items ≡ boards.old.items
        ++ map (with_cells board.now) (cuts_at (graph_of edges.now) player board.now.cells index)) }
{
    if !may_cut(player, board.cell(index)) {
        return Ok(());
    }
    let mut cut = board.copy(alloc)?;
    cut.set(index, GONE);
    boards.push(settled(edges, cut))?;
    Ok(())
}

fn boards_of(
    alloc: Global,
    edges: &[ColouredEdge],
    board: &Board,
    player: Player,
) -> Result<Vec<Board>, AllocError>
    requires edges { All IsEdge edges.now }
    requires has { (drawing_rules edges.now).has board.now ≡ true }
    ensures { IfOk result (λ boards. boards.items ≡ map (with_cells board.now)
        (flat_map (cuts_at (graph_of edges.now) player board.now.cells) (counted 0 (length board.now.cells)))) }
{
    let mut boards = Vec::new(alloc);
    for index in 0..board.size() {
        put_cut(alloc, edges, board, player, index, &mut boards)?;
    }
    Ok(boards)
}

impl Rules for Hackenbush {
    ghost game = { drawing_rules };

    fn moves(&self, alloc: Global, board: &Board, player: Player) -> Result<Boards, AllocError> {
        let boards = boards_of(alloc, self.edges(), board, player)?;
        in_order(alloc, board, &boards)
    }

    fn pieces(&self, _alloc: Global, _board: &Board) -> Result<Pieces, AllocError> {
        Ok(Pieces::Whole)
    }

    fn number(&self) -> u8 {
        0
    }

    fn lawful(&self) {}
}

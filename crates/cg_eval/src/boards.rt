//! Boards read from texts.
ghost use Rattle.std.specs.Prelude.{◌≡◌, IfErr, IfOk, codes, false, true};
ghost use Rattle.cg_moves.specs.Texts.{read_of};
ghost use Rattle.cg_domineering.specs.Moves.{domineering};
ghost use Rattle.cg_clobber.specs.Moves.{clobber};
ghost use Rattle.cg_amazons.specs.Amazons.{amazons};
ghost use Rattle.cg_graph.specs.ColouredGraphs.{coloured_graph_read};
ghost use Rattle.cg_graph.specs.Drawings.{drawing_read};
ghost use Rattle.cg_strip.specs.Toads.{toads_game};
ghost use Rattle.cg_eval.specs.Boards.{position_by, position_coloured, position_drawn};
ghost use Rattle.cg_eval.specs.Boards.{position_fault, position_of, strip_position};
ghost use Rattle.cg_eval.specs.Parts.{IsFaultOf, IsFaulty, set_up};

use crate::fault::{GameFault, is_memory};
use cg_graph::{Colouring, GraphFault, Hackenbush};
use cg_moves::Board;
use cg_strip::{Strip, read_toads};
use cg_syntax::{GameKind, Text};
use std::alloc::{AllocError, Global};

/// A board of one of the games, with the rules where they aren't the same for each board.
#[derive(Debug, Drop)]
pub enum GameBoard {
    /// Of Domineering.
    Domineering(Board),
    /// Of Clobber.
    Clobber(Board),
    /// Of Amazons.
    Amazons(Board),
    /// Of Toads and Frogs.
    Toads(Board),
    /// Of a strip game.
    Strip(Strip, Board),
    /// Of Hackenbush on a graph.
    Hackenbush(Hackenbush, Board),
    /// Of Col or of Snort on a graph.
    Colouring(Colouring, Board),
}

fn domineering_board(alloc: Global, text: &[u8]) -> Result<GameBoard, GameFault>
    ensures read { IfOk result (λ b. position_by domineering (read_of (codes ".#") false text.now) ≡ set_up b) }
    ensures refused { IfErr result (IsFaulty (position_by domineering (read_of (codes ".#") false text.now))) }
{
    match cg_domineering::read(alloc, text) {
        Ok(board) => Ok(GameBoard::Domineering(board)),
        Err(fault) => Err(GameFault::Board(fault)),
    }
}

fn clobber_board(alloc: Global, text: &[u8]) -> Result<GameBoard, GameFault>
    ensures read { IfOk result (λ b. position_by clobber (read_of (codes ".xo") false text.now) ≡ set_up b) }
    ensures refused { IfErr result (IsFaulty (position_by clobber (read_of (codes ".xo") false text.now))) }
{
    match cg_clobber::read(alloc, text) {
        Ok(board) => Ok(GameBoard::Clobber(board)),
        Err(fault) => Err(GameFault::Board(fault)),
    }
}

fn amazons_board(alloc: Global, text: &[u8]) -> Result<GameBoard, GameFault>
    ensures read { IfOk result (λ b. position_by amazons (read_of (codes ".xo#") false text.now) ≡ set_up b) }
    ensures refused { IfErr result (IsFaulty (position_by amazons (read_of (codes ".xo#") false text.now))) }
{
    match cg_amazons::read(alloc, text) {
        Ok(board) => Ok(GameBoard::Amazons(board)),
        Err(fault) => Err(GameFault::Board(fault)),
    }
}

fn toads_board(alloc: Global, text: &[u8]) -> Result<GameBoard, GameFault>
    ensures read { IfOk result (λ b. position_by toads_game (read_of (codes ".TF") true text.now) ≡ set_up b) }
    ensures refused { IfErr result (IsFaulty (position_by toads_game (read_of (codes ".TF") true text.now))) }
{
    match read_toads(alloc, text) {
        Ok(board) => Ok(GameBoard::Toads(board)),
        Err(fault) => Err(GameFault::Board(fault)),
    }
}

/// The row of a strip game, whose rules are read first.
fn strip_board(alloc: Global, rules: &[u8], row: &[u8]) -> Result<GameBoard, GameFault>
    ensures read { IfOk result (λ b. strip_position rules.now row.now ≡ set_up b) }
    ensures refused { IfErr result (IsFaulty (strip_position rules.now row.now)) }
{
    let strip = match Strip::read(alloc, rules) {
        Ok(strip) => strip,
        Err(fault) => return Err(GameFault::Board(fault)),
    };
    match strip.board(alloc, row) {
        Ok(board) => Ok(GameBoard::Strip(strip, board)),
        Err(fault) => Err(GameFault::Board(fault)),
    }
}

/// The board of Hackenbush on the graph of these edges.
fn hackenbush_board(alloc: Global, edges: &[u8]) -> Result<GameBoard, GameFault>
    ensures read { IfOk result (λ b. position_drawn (drawing_read edges.now) ≡ set_up b) }
    ensures refused { IfErr result (IsFaulty (position_drawn (drawing_read edges.now))) }
{
    let drawing = match Hackenbush::read(alloc, edges) {
        Ok(drawing) => drawing,
        Err(fault) => return Err(GameFault::Graph(fault)),
    };
    match drawing.board(alloc) {
        Ok(board) => Ok(GameBoard::Hackenbush(drawing, board)),
        Err(_) => Err(GameFault::Graph(GraphFault::Memory)),
    }
}

/// The board of Col or of Snort on the graph of these vertices and edges.
fn colouring_board(
    alloc: Global,
    snort: bool,
    vertices: &[u8],
    edges: &[u8],
) -> Result<GameBoard, GameFault>
    ensures read { IfOk result (λ b. position_coloured (coloured_graph_read snort vertices.now edges.now) ≡ set_up b) }
    ensures refused { IfErr result (IsFaulty (position_coloured (coloured_graph_read snort vertices.now edges.now))) }
{
    let coloured_graph = match Colouring::read(alloc, snort, vertices, edges) {
        Ok(coloured_graph) => coloured_graph,
        Err(fault) => return Err(GameFault::Graph(fault)),
    };
    match coloured_graph.board(alloc) {
        Ok(board) => Ok(GameBoard::Colouring(coloured_graph, board)),
        Err(_) => Err(GameFault::Graph(GraphFault::Memory)),
    }
}

/// The board of the text. Of a strip game the rules are read first.
pub(crate) fn game_board(
    alloc: Global,
    kind: GameKind,
    rules: &Text,
    board: &Text,
) -> Result<GameBoard, GameFault>
    ensures read { IfOk result (λ b. position_of kind rules.now board.now ≡ set_up b) }
    ensures refused { IfErr result (IsFaulty (position_of kind rules.now board.now)) }
{
    let rules = rules.as_slice();
    let board = board.as_slice();
    match kind {
        GameKind::Domineering => domineering_board(alloc, board),
        GameKind::Clobber => clobber_board(alloc, board),
        GameKind::Amazons => amazons_board(alloc, board),
        GameKind::Toads => toads_board(alloc, board),
        GameKind::Strip => strip_board(alloc, rules, board),
        GameKind::Hackenbush => hackenbush_board(alloc, rules),
        GameKind::Col => colouring_board(alloc, false, board, rules),
        GameKind::Snort => colouring_board(alloc, true, board, rules),
    }
}

/// The fault of a reading, unless that is out of memory.
fn fault_of(read: Result<GameBoard, GameFault>) -> Result<Option<GameFault>, AllocError>
    ensures { IfOk result (λ fault. IsFaultOf fault read) }
{
    match read {
        Ok(_) => Ok(None),
        Err(fault) => {
            if is_memory(fault) {
                Err(AllocError)
            } else {
                Ok(Some(fault))
            }
        }
    }
}

/// Why the text of the board is ill-formed, if it is.
pub(crate) fn board_fault(
    alloc: Global,
    kind: GameKind,
    rules: &Text,
    board: &Text,
) -> Result<Option<GameFault>, AllocError>
    ensures { IfOk result (λ fault. fault ≡ position_fault (position_of kind rules.now board.now)) }
{
    let read = game_board(alloc, kind, rules, board);
    fault_of(read)
}

//! Values of boards, on handles.
ghost use Rattle.std.specs.Prelude.{◌≡◌, true};
ghost use Rattle.cg_canon.specs.Works.{work_state};
ghost use Rattle.cg_nodes.specs.Can.{can};
ghost use Rattle.cg_eval.specs.Forms.{board_form};
ghost use Rattle.cg_canon.specs.Made.{Gives};
ghost use Rattle.cg_values.specs.Notes.{MayNote};
ghost use Rattle.cg_eval.specs.Boards.{board, position_fault, position_form, position_items, position_of};
ghost use Rattle.cg_eval.specs.Parts.{IsSound, set_up};
ghost use Rattle.cg_eval.specs.Progress.{Finds};

use crate::SumAdder;
use crate::boards::{GameBoard, game_board};
use crate::fault::{NoValue, is_memory, widen};
use crate::forms::{CgBoards, may_note};
use cg_amazons::Amazons;
use cg_canon::{ValueFault, Work};
use cg_cells::CellStore;
use cg_clobber::Clobber;
use cg_domineering::Domineering;
use cg_moves::{Board, Rules};
use cg_nodes::{GameFacts, Handle};
use cg_strip::Toads;
use cg_syntax::{GameKind, Text};
use cg_values::value_of;
use std::alloc::Global;

/// The value of the board by these rules.
fn value_by<S: CellStore<GameFacts<CgBoards>>, R: Rules>(
    alloc: Global,
    work: &mut Work<CgBoards, S>,
    rules: &R,
    start: &Board,
) -> Result<Handle, ValueFault>
    requires has { (R.game rules.now).has start.now ≡ true }
    requires notes { MayNote board_form (R.game rules.now) }
    ensures { let p = board (R.game rules.now) start.now in
        Gives (work_state S.state work.old) (work_state S.state work.new) (position_items work.old.limit p)
        (can (position_form p)) result }
{
    value_of(alloc, work, rules, &SumAdder, start)
}

/// The value of the board by the rules of its game.
fn value_in<S: CellStore<GameFacts<CgBoards>>>(
    alloc: Global,
    work: &mut Work<CgBoards, S>,
    board: &GameBoard,
) -> Result<Handle, ValueFault>
    requires { IsSound (set_up board.now) }
    ensures { Gives (work_state S.state work.old) (work_state S.state work.new)
        (position_items work.old.limit (set_up board.now)) (can (position_form (set_up board.now))) result }
{
    may_note();
    match board {
        GameBoard::Domineering(board) => value_by(alloc, work, &Domineering, board),
        GameBoard::Clobber(board) => value_by(alloc, work, &Clobber, board),
        GameBoard::Amazons(board) => value_by(alloc, work, &Amazons, board),
        GameBoard::Toads(board) => value_by(alloc, work, &Toads, board),
        GameBoard::Strip(strip, board) => value_by(alloc, work, strip, board),
        GameBoard::Hackenbush(drawing, board) => value_by(alloc, work, drawing, board),
        GameBoard::Colouring(coloured_graph, board) => value_by(alloc, work, coloured_graph, board),
    }
}

/// The value of the board, whose text is read once. It makes the board's items in order; the cause is that the text is
/// ill-formed, or that of the first item that is refused, or out of memory.
pub fn board_value<S: CellStore<GameFacts<CgBoards>>>(
    alloc: Global,
    work: &mut Work<CgBoards, S>,
    kind: GameKind,
    rules: &Text,
    board: &Text,
) -> Result<Handle, NoValue>
    ensures { let p = position_of kind rules.now board.now in
        Finds (work_state S.state work.old) (work_state S.state work.new) (position_fault p)
        (position_items work.old.limit p) (position_form p) result }
{
    match game_board(alloc, kind, rules, board) {
        Ok(board) => widen(value_in(alloc, work, &board)),
        Err(fault) => {
            if is_memory(fault) {
                Err(NoValue::Refused(ValueFault::Memory))
            } else {
                Err(NoValue::IllFormed(fault))
            }
        }
    }
}

//! The value of a board.
ghost use Rattle.std.specs.Prelude.{◌≡◌, ◌≢◌, ◌≤◌, true, IfErr, OnOk, length};
ghost use Rattle.cg_canon.specs.Made.{Gives};
ghost use Rattle.cg_canon.specs.Works.{work_state};
ghost use Rattle.cg_nodes.specs.Can.{can};
ghost use Rattle.cg_moves.specs.Raw.{raw};
ghost use Rattle.cg_values.specs.Items.{board_items, parts_reach};
ghost use Rattle.cg_values.specs.Notes.{AreNoted, MayNote};
ghost use Rattle.cg_values.specs.Parts.{FrontsNoted};

use crate::Adder;
use crate::joining::joined;
use crate::parts::parts_within;
use crate::values::part_values;
use cg_canon::{ValueFault, Work};
use cg_cells::CellStore;
use cg_moves::{Board, Rules};
use cg_nodes::{BoardForms, GameFacts, Handle};
use std::alloc::Global;

/// The handle of the canonical form of the tree of all moves from the start, which must be a board of the game.
///
/// Where the rules don't cut, it makes the item of the canonical form of the tree of each board that play can come to,
/// in their order; such an item costs 8 more than the form. Where they cut, it does so for each piece that play can
/// come to in pieces; before each it joins the pieces of the boards that moves on it lead to, and in the end those of
/// the start. To join pieces is to add them up with the adder: of no piece it makes the number 0, and of one it makes
/// nothing.
///
/// `Positions`, `Range`, `Depth` and `Full` come exactly where the first item that isn't made is refused so; what the
/// items before it cost is spent. Where there are more such boards or pieces than the limit, the one item is refused by
/// `Positions`.
///
/// Values are noted on the cells of their boards, unless the game's number is 0: in the end the cell of each board, or
/// piece, that play can come to is known, and a value is noted there. Where an item is refused, that holds of each
/// board, or piece, whose own item was charged before. So the rules must be such that the note on a board's cell is the
/// value of that board. A value that is found there isn't made again, but is charged all the same.
pub fn value_of<B: BoardForms, S: CellStore<GameFacts<B>>, R: Rules, A: Adder>(
    alloc: Global,
    work: &mut Work<B, S>,
    rules: &R,
    adder: &A,
    start: &Board,
) -> Result<Handle, ValueFault>
    requires has { (R.game rules.now).has start.now ≡ true }
    requires notes { MayNote B.form (R.game rules.now) }
    ensures gives { Gives (work_state S.state work.old) (work_state S.state work.new)
        (board_items work.old.limit (R.game rules.now) start.now) (can (raw (R.game rules.now) start.now)) result }
    ensures noted { OnOk result (AreNoted (work_state S.state work.new) (R.game rules.now)
        (parts_reach (R.game rules.now) start.now)) }
    ensures noted_before { IfErr result (λ fault. fault ≢ ValueFault.Memory
        → length (parts_reach (R.game rules.now) start.now) ≤ work.old.limit
        → FrontsNoted (work_state S.state work.old) (work_state S.state work.new) (R.game rules.now)
        (parts_reach (R.game rules.now) start.now)) }
{
    // Called for the proof alone: the rules are lawful.
    rules.lawful();
    let limit = work.limit();
    let graph = parts_within(alloc, rules, start, limit)?;
    let handles = part_values(alloc, work, rules, adder, &graph)?;
    joined(alloc, work, adder, &handles, &graph.starts)
}

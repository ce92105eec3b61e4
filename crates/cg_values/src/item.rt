//! The item of the value of a board.
ghost use Rattle.std.specs.Prelude.{◌≡◌, ◌+◌, ◌≤◌, true, IfOk, OnOk, [], ◌∷◌, ◌≢◌, Some, length};
ghost use Rattle.cg_canon.specs.Works.{work_state};
ghost use Rattle.cg_nodes.specs.Boards.{AreWritten};
ghost use Rattle.cg_cells.specs.Meaning.{note_for};
ghost use Rattle.cg_cells.specs.Store.{Spends, thing_at};
ghost use Rattle.cg_nodes.specs.Can.{can};
ghost use Rattle.cg_nodes.specs.Games.{StandsFor};
ghost use Rattle.cg_nodes.specs.Meant.{form};
ghost use Rattle.cg_nodes.specs.Spelled.{game_meaning};
ghost use Rattle.cg_moves.specs.Raw.{raw};
ghost use Rattle.cg_moves.specs.Lawful.{IsLawful};
ghost use Rattle.cg_values.specs.Items.{value_item};
ghost use Rattle.cg_canon.specs.Made.{FormGiven, Gives, ItemsMade};
ghost use Rattle.cg_values.specs.Notes.{IsCellOf, IsNoted, IsNumbered, MayNote, places};
ghost use Rattle.cg_values.specs.Options.{AreOptions};

use crate::cells::board_cell;
use crate::contents::contents_of;
use crate::options::Options;
use cg_canon::{ValueFault, Work, canonical, item_of};
use cg_cells::{CellStore, Id};
use cg_moves::{Board, Rules};
use cg_nodes::{BoardForms, GameFacts, Handle};
use std::alloc::Global;

/// Makes the item of the value of the board from those of the boards that its moves lead to.
fn made_item<B: BoardForms, S: CellStore<GameFacts<B>>, R: Rules>(
    alloc: Global,
    work: &mut Work<B, S>,
    rules: &R,
    board: &Board,
    options: &Options,
) -> Result<Handle, ValueFault>
    requires lawful { IsLawful (R.game rules.now) }
    requires has { (R.game rules.now).has board.now ≡ true }
    requires options { AreOptions (work_state S.state work.old) (R.game rules.now) board.now options.now }
    ensures { FormGiven (work_state S.state work.old) (work_state S.state work.new) (can (raw (R.game rules.now) board.now)) 8 result }
{
    let (lefts, rights) = options.handles.as_slice().split_at(options.lefts);
    canonical(alloc, work, lefts, rights, 8)
}

/// Makes the item of the value of the board, which is noted on the cell.
fn noted_item<B: BoardForms, S: CellStore<GameFacts<B>>, R: Rules>(
    alloc: Global,
    work: &mut Work<B, S>,
    rules: &R,
    board: &Board,
    options: &Options,
    cell: Id,
) -> Result<Handle, ValueFault>
    requires lawful { IsLawful (R.game rules.now) }
    requires has { (R.game rules.now).has board.now ≡ true }
    requires options { AreOptions (work_state S.state work.old) (R.game rules.now) board.now options.now }
    requires cell { IsCellOf (work_state S.state work.old) (R.game rules.now) board.now cell }
    requires due { note_for (game_meaning B.form) (thing_at (work_state S.state work.old) cell)
        ≡ Some (form (can (raw (R.game rules.now) board.now))) }
    ensures gives { Gives (work_state S.state work.old) (work_state S.state work.new)
        (value_item (R.game rules.now) board.now ∷ []) (can (raw (R.game rules.now) board.now)) result }
    ensures noted { OnOk result (IsNoted (work_state S.state work.new) (R.game rules.now) board.now) }
{
    match work.noted(cell) {
        Some(noted) => item_of(alloc, work, Handle::of(noted), 8),
        None => {
            let value = made_item(alloc, work, rules, board, options)?;
            work.note(cell, value.id());
            Ok(value)
        }
    }
}

/// The cell on which the value of the board is noted. It spends a claim more than there are contents.
fn cell_of<B: BoardForms, S: CellStore<GameFacts<B>>, R: Rules>(
    work: &mut Work<B, S>,
    rules: &R,
    board: &Board,
    contents: &[u32],
) -> Id
    requires has { (R.game rules.now).has board.now ≡ true }
    requires numbered { IsNumbered B.form (R.game rules.now) }
    requires written { AreWritten (places board.now.symbols board.now.cells) contents.now }
    requires spare { length contents.now + 1 ≤ (work_state S.state work.old).spare }
    ensures cell { IsCellOf (work_state S.state work.new) (R.game rules.now) board.now result }
    ensures due { note_for (game_meaning B.form) (thing_at (work_state S.state work.new) result)
        ≡ Some (form (can (raw (R.game rules.now) board.now))) }
    ensures spends { Spends (length contents.now + 1) (work_state S.state work.old) (work_state S.state work.new) }
{
    // Read for the proof alone: the board has its cells in rows and columns.
    let _size = board.size();
    board_cell(
        work,
        rules.number(),
        board.rows(),
        board.columns(),
        contents,
    )
}

/// Makes the item of the value of the board of a numbered game. The value is looked for in the notes where the own
/// spare covers the claims that this takes, above what it was at the start; the value is noted then or after its item
/// was charged.
fn numbered_item<B: BoardForms, S: CellStore<GameFacts<B>>, R: Rules>(
    alloc: Global,
    work: &mut Work<B, S>,
    rules: &R,
    board: &Board,
    options: &Options,
    start: u64,
) -> Result<Handle, ValueFault>
    requires lawful { IsLawful (R.game rules.now) }
    requires has { (R.game rules.now).has board.now ≡ true }
    requires numbered { IsNumbered B.form (R.game rules.now) }
    requires options { AreOptions (work_state S.state work.old) (R.game rules.now) board.now options.now }
    requires spare { start ≤ (work_state S.state work.old).spare }
    ensures game { IfOk result (λ h. StandsFor (work_state S.state work.new) h (can (raw (R.game rules.now) board.now))) }
    ensures noted { OnOk result (IsNoted (work_state S.state work.new) (R.game rules.now) board.now) }
    ensures made { ItemsMade (work_state S.state work.old) (work_state S.state work.new) (value_item (R.game rules.now) board.now ∷ []) result }
    ensures spare { start ≤ (work_state S.state work.new).spare }
{
    // Read for the proof alone: the board has as many symbols as boards of its game.
    let _size = board.size();
    let contents = contents_of(alloc, board)?;
    let claims = contents.len() as u64 + 1;
    if work.spare() >= start + claims {
        let cell = cell_of(work, rules, board, contents.as_slice());
        return noted_item(alloc, work, rules, board, options, cell);
    }
    let value = made_item(alloc, work, rules, board, options)?;
    let cell = cell_of(work, rules, board, contents.as_slice());
    work.note(cell, value.id());
    Ok(value)
}

/// Makes the item of the value of the board, from those of the boards that its moves lead to.
pub(crate) fn board_item<B: BoardForms, S: CellStore<GameFacts<B>>, R: Rules>(
    alloc: Global,
    work: &mut Work<B, S>,
    rules: &R,
    board: &Board,
    options: &Options,
    start: u64,
) -> Result<Handle, ValueFault>
    requires lawful { IsLawful (R.game rules.now) }
    requires has { (R.game rules.now).has board.now ≡ true }
    requires notes { MayNote B.form (R.game rules.now) }
    requires options { AreOptions (work_state S.state work.old) (R.game rules.now) board.now options.now }
    requires spare { start ≤ (work_state S.state work.old).spare }
    ensures game { IfOk result (λ h. StandsFor (work_state S.state work.new) h (can (raw (R.game rules.now) board.now))) }
    ensures noted { OnOk result ((R.game rules.now).number ≢ 0
        → IsNoted (work_state S.state work.new) (R.game rules.now) board.now) }
    ensures made { ItemsMade (work_state S.state work.old) (work_state S.state work.new) (value_item (R.game rules.now) board.now ∷ []) result }
    ensures spare { start ≤ (work_state S.state work.new).spare }
{
    if rules.number() == 0 {
        return made_item(alloc, work, rules, board, options);
    }
    numbered_item(alloc, work, rules, board, options, start)
}

//! The sums of all positions of one game and all positions of another.
//!
//! They stand in one table, row by row, so that the sum of two positions is found by their places.
ghost use Rattle.std.specs.Prelude.{◌≡◌, ◌+◌, ◌*◌, ◌<◌, ◌≤◌, List, [], length};
ghost use Rattle.cg_arena.specs.Arena.{game_of};
ghost use Rattle.cg_canon.specs.Walk.{IsWalk};
ghost use Rattle.cg_canon.specs.SumItems.{pair_items, row_items};
ghost use Rattle.cg_canon.specs.Works.{work_state};
ghost use Rattle.cg_form.specs.Game as tree;
ghost use Rattle.cg_sum.specs.Progress.{FormsMade, HoldsForms, sum_at_place};

use crate::item::sum_item;
use crate::terms::Terms;
use cg_canon::{Game, ValueFault, Work};
use cg_cells::CellStore;
use cg_nodes::{BoardForms, GameFacts};
use std::alloc::Global;

/// Makes the items of the sums of each position of the first game, in the outer loop, and each of the second, in
/// the inner loop.
pub(crate) fn add_rows<B: BoardForms, S: CellStore<GameFacts<B>>>(
    alloc: Global,
    work: &mut Work<B, S>,
    terms: &Terms,
    table: &mut Vec<Game>,
) -> Result<(), ValueFault>
    ghost games: { List tree.Game × List tree.Game }
    requires firsts { IsWalk work.old.arena terms.now.firsts games.0 }
    requires seconds { IsWalk work.old.arena terms.now.seconds games.1 }
    requires none { table.old.items ≡ [] }
    requires spare { terms.now.start ≤ (work_state S.state work.old).spare }
    ensures { FormsMade (work_state S.state work.old) (work_state S.state work.new) work.old.arena work.new.arena
        terms.now.start (pair_items games.0 games.1) (sum_at_place games) (length games.0 * length games.1)
        table.new.items result }
{
    for row in 0..terms.firsts.positions.len() {
        add_row(alloc, work, terms, row, table)?;
    }
    Ok(())
}

// Makes the items of the sums of the first game's position at the place and each of the second's, behind those of the
// rows before.
fn add_row<B: BoardForms, S: CellStore<GameFacts<B>>>(
    alloc: Global,
    work: &mut Work<B, S>,
    terms: &Terms,
    row: usize,
    table: &mut Vec<Game>,
) -> Result<(), ValueFault>
    ghost games: { List tree.Game × List tree.Game }
    requires firsts { IsWalk work.old.arena terms.now.firsts games.0 }
    requires seconds { IsWalk work.old.arena terms.now.seconds games.1 }
    requires row { row < length games.0 }
    requires holds { HoldsForms work.old.arena (sum_at_place games) (row * length games.1) table.old.items }
    requires spare { terms.now.start ≤ (work_state S.state work.old).spare }
    ensures { FormsMade (work_state S.state work.old) (work_state S.state work.new) work.old.arena work.new.arena
        terms.now.start (row_items games.1 (game_of games.0 row)) (sum_at_place games)
        (row * length games.1 + length games.1) table.new.items result }
{
    for column in 0..terms.seconds.positions.len() {
        let sum = sum_item(alloc, work, terms, row, column, table.as_slice())?;
        table.push(sum)?;
    }
    Ok(())
}

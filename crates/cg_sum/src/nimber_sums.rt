//! The sums of two nimbers and of all their positions, which are nimbers.
ghost use Rattle.std.specs.Prelude.{◌+◌, ◌≤◌, OnOk};
ghost use Rattle.cg_canon.specs.Made.{Gives, ItemsMade};
ghost use Rattle.cg_canon.specs.SumItems.{pair_items, row_items, sum_items};
ghost use Rattle.cg_canon.specs.Works.{work_state};
ghost use Rattle.cg_form.specs.Sum.{sum};
ghost use Rattle.cg_nimbers.specs.Nimbers.{nimber_form, nimbers_below};
ghost use Rattle.cg_nodes.specs.Can.{can};
ghost use Rattle.cg_nodes.specs.Games.{game_at};
ghost use Rattle.cg_sum.specs.Firsts.{HoldsFirst, IsPair, RowsKnown};

use crate::firsts::{FirstNimbers, nimber_item};
use crate::pair::NimberPair;
use crate::terms::is_product_above;
use cg_canon::{ValueFault, Work};
use cg_cells::CellStore;
use cg_nodes::{BoardForms, GameFacts, Handle};
use std::alloc::Global;

/// Makes the items of the sums of all positions of the two nimbers, which are the nimbers up to both, and gives the
/// handle of the sum of the two: the nimber of the exclusive or of their numbers.
pub(crate) fn nimber_sum<B: BoardForms, S: CellStore<GameFacts<B>>>(
    alloc: Global,
    work: &mut Work<B, S>,
    a: Handle,
    b: Handle,
    pair: NimberPair,
) -> Result<Handle, ValueFault>
    requires pair { IsPair (work_state S.state work.old) a b pair }
    ensures { let W = work_state S.state work.old in Gives W (work_state S.state work.new)
        (sum_items work.old.limit (game_at W a) (game_at W b)) (can (sum (game_at W a) (game_at W b))) result }
{
    let NimberPair {
        first,
        second,
        mut nimbers,
    } = pair;
    if is_product_above(first + 1, second + 1, work.limit()) {
        return Err(ValueFault::Positions);
    }
    add_nimbers(alloc, work, &mut nimbers, first + 1, second + 1)?;
    Ok(nimbers.handles[first ^ second])
}

// Makes the items of the sums of each of the first nimbers, so many in the outer loop, and so many in the inner loop.
fn add_nimbers<B: BoardForms, S: CellStore<GameFacts<B>>>(
    alloc: Global,
    work: &mut Work<B, S>,
    nimbers: &mut FirstNimbers,
    rows: usize,
    columns: usize,
) -> Result<(), ValueFault>
    requires holds { HoldsFirst (work_state S.state work.old) nimbers.old }
    ensures holds { OnOk result (HoldsFirst (work_state S.state work.new) nimbers.new) }
    ensures known { OnOk result (RowsKnown nimbers.new rows columns) }
    ensures made { ItemsMade (work_state S.state work.old) (work_state S.state work.new)
        (pair_items (nimbers_below rows) (nimbers_below columns)) result }
    ensures spare { (work_state S.state work.old).spare ≤ (work_state S.state work.new).spare }
{
    for row in 0..rows {
        add_nimber(alloc, work, nimbers, row, columns)?;
    }
    Ok(())
}

// Makes the items of the sums of the nimber of `row` and each of the first nimbers, so many, where those of the lesser
// rows are known.
fn add_nimber<B: BoardForms, S: CellStore<GameFacts<B>>>(
    alloc: Global,
    work: &mut Work<B, S>,
    nimbers: &mut FirstNimbers,
    row: usize,
    columns: usize,
) -> Result<(), ValueFault>
    requires holds { HoldsFirst (work_state S.state work.old) nimbers.old }
    requires known { RowsKnown nimbers.old row columns }
    ensures holds { OnOk result (HoldsFirst (work_state S.state work.new) nimbers.new) }
    ensures known { OnOk result (RowsKnown nimbers.new (row + 1) columns) }
    ensures made { ItemsMade (work_state S.state work.old) (work_state S.state work.new)
        (row_items (nimbers_below columns) (nimber_form row)) result }
    ensures spare { (work_state S.state work.old).spare ≤ (work_state S.state work.new).spare }
{
    for column in 0..columns {
        nimber_item(alloc, work, nimbers, row ^ column)?;
    }
    Ok(())
}

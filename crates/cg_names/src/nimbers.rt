//! Nimbers.
ghost use Rattle.std.specs.Prelude.{map, suc};
ghost use Rattle.cg_canon.specs.Made.{Gives};
ghost use Rattle.cg_canon.specs.Works.{work_state};
ghost use Rattle.cg_names.specs.Lists.{form_items, plain_item};
ghost use Rattle.cg_names.specs.Named.{nimber_form, nimbers_below};

use crate::making::{make, make_zero, within};
use cg_canon::{ValueFault, Work};
use cg_cells::CellStore;
use cg_nodes::{BoardForms, GameFacts, Handle};
use std::alloc::Global;

/// Makes `*count`, the nimber with the options 0, `*1` and so on up to `*(count - 1)` on each side, and 0 where the
/// count is 0. Its items are its positions: 0, `*1` and so on up to itself, `count + 1` of them.
///
/// `Positions` comes exactly where there are more of them than the work's limit, and else `Depth` or `Full` exactly
/// where the first item that can't be made says so; what was spent before is spent. (Siegel, Combinatorial Game
/// Theory (2013), II.1.)
pub fn nimber<B: BoardForms, S: CellStore<GameFacts<B>>>(
    alloc: Global,
    work: &mut Work<B, S>,
    count: u128,
) -> Result<Handle, ValueFault>
    ensures { Gives (work_state S.state work.old) (work_state S.state work.new)
        (form_items work.old.limit (nimber_form count)) (nimber_form count) result }
{
    let limit = work.limit();
    match within(count, 1, limit) {
        None => Err(ValueFault::Positions),
        Some(count) => make_nimbers(alloc, work, count),
    }
}

/// Makes 0, `*1` and so on up to `*count`.
fn make_nimbers<B: BoardForms, S: CellStore<GameFacts<B>>>(
    alloc: Global,
    work: &mut Work<B, S>,
    count: u64,
) -> Result<Handle, ValueFault>
    ensures { Gives (work_state S.state work.old) (work_state S.state work.new)
        (map plain_item (nimbers_below (suc count))) (nimber_form count) result }
{
    let mut last = make_zero(alloc, work)?;
    let mut lesser = Vec::new(alloc);
    for level in 0..count {
        lesser.push(last)?;
        last = make(alloc, work, false, &lesser, &lesser)?;
    }
    Ok(last)
}

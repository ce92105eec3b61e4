//! Numbers and named games, on handles.
ghost use Rattle.std.specs.Prelude.{None};
ghost use Rattle.cg_canon.specs.Works.{work_state};
ghost use Rattle.cg_eval.specs.Progress.{Evaluates, Finds};
ghost use Rattle.cg_eval.specs.Zero.{zero_form, zero_items};
ghost use Rattle.cg_query.specs.Tree as trees;

use crate::fault::{NoValue, widen};
use cg_canon::{Work, number_item, zero};
use cg_cells::CellStore;
use cg_dyadic::Dyadic;
use cg_names::{nimber, switch, tiny, ups};
use cg_nodes::{BoardForms, GameFacts, Handle};
use std::alloc::Global;

/// 0, as which a sum of no terms counts, and a use of a name.
pub fn nothing<B: BoardForms, S: CellStore<GameFacts<B>>>(
    alloc: Global,
    work: &mut Work<B, S>,
) -> Result<Handle, NoValue>
    ensures { Finds (work_state S.state work.old) (work_state S.state work.new) None zero_items zero_form result }
{
    widen(number_item(alloc, work, Some(zero()), 0))
}

/// The number of a literal.
pub fn literal<B: BoardForms, S: CellStore<GameFacts<B>>>(
    alloc: Global,
    work: &mut Work<B, S>,
    below: bool,
    num: u128,
    den: u128,
) -> Result<Handle, NoValue>
    ensures { Evaluates (work_state S.state work.old) (work_state S.state work.new)
        (trees.number below num den) result }
{
    widen(number_item(alloc, work, Dyadic::from_digits(below, num, den), 0))
}

/// So many ups, or downs.
pub fn named_ups<B: BoardForms, S: CellStore<GameFacts<B>>>(
    alloc: Global,
    work: &mut Work<B, S>,
    down: bool,
    count: u128,
) -> Result<Handle, NoValue>
    ensures { Evaluates (work_state S.state work.old) (work_state S.state work.new) (trees.ups down count) result }
{
    widen(ups(alloc, work, down, count))
}

/// A nimber.
pub fn named_nimber<B: BoardForms, S: CellStore<GameFacts<B>>>(
    alloc: Global,
    work: &mut Work<B, S>,
    count: u128,
) -> Result<Handle, NoValue>
    ensures { Evaluates (work_state S.state work.old) (work_state S.state work.new) (trees.nimber count) result }
{
    widen(nimber(alloc, work, count))
}

/// The switch of a literal.
pub fn named_switch<B: BoardForms, S: CellStore<GameFacts<B>>>(
    alloc: Global,
    work: &mut Work<B, S>,
    num: u128,
    den: u128,
) -> Result<Handle, NoValue>
    ensures { Evaluates (work_state S.state work.old) (work_state S.state work.new) (trees.switch num den) result }
{
    widen(switch(alloc, work, Dyadic::from_digits(false, num, den)))
}

/// Tiny or miny of a literal.
pub fn named_tiny<B: BoardForms, S: CellStore<GameFacts<B>>>(
    alloc: Global,
    work: &mut Work<B, S>,
    miny: bool,
    num: u128,
    den: u128,
) -> Result<Handle, NoValue>
    ensures { Evaluates (work_state S.state work.old) (work_state S.state work.new) (trees.tiny miny num den) result }
{
    widen(tiny(alloc, work, miny, Dyadic::from_digits(false, num, den)))
}

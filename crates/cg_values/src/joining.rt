//! The value of a board, from those of its parts.
ghost use Rattle.std.specs.Prelude.{List, length, map};
ghost use Rattle.cg_canon.specs.Works.{work_state};
ghost use Rattle.cg_form.specs.Game.{Game};
ghost use Rattle.cg_nodes.specs.Boards.{AreBelow};
ghost use Rattle.cg_nodes.specs.Can.{can};
ghost use Rattle.cg_nodes.specs.Games.{AreGames, IsGame, StandFor, StandsFor};
ghost use Rattle.cg_canon.specs.Made.{Gives};
ghost use Rattle.cg_values.specs.Items.{added, added_items, sum_up, sum_up_items};
ghost use Rattle.cg_values.specs.Parts.{handles_at};

use crate::Adder;
use cg_canon::{ValueFault, Work, canonical};
use cg_cells::CellStore;
use cg_nodes::{BoardForms, GameFacts, Handle};
use std::alloc::Global;

/// Adds the games of the handles at further places to a game, one after another.
fn add_all<B: BoardForms, S: CellStore<GameFacts<B>>, A: Adder>(
    alloc: Global,
    work: &mut Work<B, S>,
    adder: &A,
    first: Handle,
    handles: &[Handle],
    others: &[u32],
) -> Result<Handle, ValueFault>
    requires first { IsGame (work_state S.state work.old) first }
    requires within { AreBelow (length handles.now) others.now }
    requires games { AreGames (work_state S.state work.old) (handles_at handles.now others.now) }
    ensures { (g : Game) (hs : List Game) → StandsFor (work_state S.state work.old) first (can g)
        → StandFor (work_state S.state work.old) (handles_at handles.now others.now) (map can hs)
        → Gives (work_state S.state work.old) (work_state S.state work.new) (added_items work.old.limit g hs) (can (added g hs))
        result }
{
    let mut sum = first;
    for place in others {
        sum = adder.add(alloc, work, sum, handles[*place as usize])?;
    }
    Ok(sum)
}

/// Adds up the games of the handles at the places of a board's parts. Of no part it makes the number 0, and of one it
/// makes nothing.
#[inline(always)]
pub(crate) fn joined<B: BoardForms, S: CellStore<GameFacts<B>>, A: Adder>(
    alloc: Global,
    work: &mut Work<B, S>,
    adder: &A,
    handles: &[Handle],
    places: &[u32],
) -> Result<Handle, ValueFault>
    requires within { AreBelow (length handles.now) places.now }
    requires games { AreGames (work_state S.state work.old) (handles_at handles.now places.now) }
    ensures { (gs : List Game) → StandFor (work_state S.state work.old) (handles_at handles.now places.now) (map can gs)
        → Gives (work_state S.state work.old) (work_state S.state work.new) (sum_up_items work.old.limit gs) (can (sum_up gs))
        result }
{
    match places.split_first() {
        Some((first, others)) => add_all(
            alloc,
            work,
            adder,
            handles[*first as usize],
            handles,
            others,
        ),
        None => canonical(alloc, work, &[], &[], 0),
    }
}

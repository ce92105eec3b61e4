//! Multiples of the game of a handle.
ghost use Rattle.cg_canon.specs.Made.{Gives};
ghost use Rattle.cg_canon.specs.Works.{work_state};
ghost use Rattle.cg_form.specs.Multiple.{multiple as times};
ghost use Rattle.cg_nodes.specs.Can.{can};
ghost use Rattle.cg_nodes.specs.Games.{IsGame, game_at};
ghost use Rattle.cg_sum.specs.Lists.{multiple_items};

use crate::addition::found_sum;
use cg_canon::{ValueFault, Work, number_item, zero};
use cg_cells::CellStore;
use cg_nodes::{BoardForms, GameFacts, Handle, known_game};
use std::alloc::Global;

/// The handle of the canonical form of `count` copies of a added up: 0.G is the number 0, and n.G is (n -
/// 1).G + G (Siegel, Combinatorial Game Theory (2013), I.1).
///
/// For 0 it makes the item of the number 0, for 1 none, and else those of `count - 1` sums: each adds a to
/// the form of the multiple so far, and has its own list with its own limit. The work keeps the sums of one
/// step for the later ones, and none is noted on a cell. A refusal is that of the first item that isn't made,
/// or of the first list that is too long; what the items before it cost is spent. Each sum costs at least 2,
/// so a great count ends by `Full` or by another refusal.
pub fn multiple<B: BoardForms, S: CellStore<GameFacts<B>>>(
    alloc: Global,
    work: &mut Work<B, S>,
    count: u128,
    a: Handle,
) -> Result<Handle, ValueFault>
    requires { IsGame (work_state S.state work.old) a }
    ensures { let W = work_state S.state work.old in Gives W (work_state S.state work.new)
        (multiple_items work.old.limit count (game_at W a)) (can (times count (game_at W a))) result }
{
    if count == 0 {
        return number_item(alloc, work, Some(zero()), 0);
    }
    // Called for the proof alone: the form that a handle stands for is canonical.
    known_game(work, a);
    let mut total = a;
    for _step in 1..count {
        total = found_sum(alloc, work, total, a, false)?;
    }
    Ok(total)
}

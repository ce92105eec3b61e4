//! The stops of a game.
//!
//! Its cuts of the numbers have them: the numbers that are at most the game end at its Right stop, and those that are
//! at least the game begin at its Left stop.
ghost use Rattle.std.specs.Prelude.{IfOk};
ghost use Rattle.cg_canon.specs.Works.{work_state};
ghost use Rattle.cg_cells.specs.Store.{Spends};
ghost use Rattle.cg_nodes.specs.Games.{IsGame, game_at};
ghost use Rattle.cg_thermo.specs.StopsOf.{StopsAre};

use crate::ending::Stops;
use cg_canon::Work;
use cg_cells::CellStore;
use cg_nodes::{BoardForms, GameFacts, Handle};
use std::alloc::{AllocError, Global};

/// The stops of the game (Siegel, Combinatorial Game Theory (2013), II.3). The only error is out of memory.
pub fn stops<B: BoardForms, S: CellStore<GameFacts<B>>>(
    alloc: Global,
    work: &mut Work<B, S>,
    a: Handle,
) -> Result<Stops, AllocError>
    requires { IsGame (work_state S.state work.old) a }
    ensures stops { IfOk result (StopsAre (game_at (work_state S.state work.old) a)) }
    ensures spends { Spends 0 (work_state S.state work.old) (work_state S.state work.new) }
{
    let game = work.game(alloc, a)?;
    let summary = work.arena().summary(game);
    Ok(Stops {
        left: summary.high.at,
        right: summary.low.at,
    })
}

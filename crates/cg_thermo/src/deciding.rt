//! The outcome of a game.
ghost use Rattle.std.specs.Prelude.{◌≡◌, IfOk};
ghost use Rattle.cg_canon.specs.Works.{work_state};
ghost use Rattle.cg_cells.specs.Store.{Spends};
ghost use Rattle.cg_form.specs.Outcome.{outcome};
ghost use Rattle.cg_nodes.specs.Games.{IsGame, game_at};
ghost use Rattle.cg_thermo.specs.Winners.{told, winner_by};

use crate::winner::Outcome;
use cg_canon::{Work, le_number, number_le, zero};
use cg_cells::CellStore;
use cg_nodes::{BoardForms, GameFacts, Handle};
use std::alloc::{AllocError, Global};

// Who wins a game, by whether it is at least 0, and at most 0.
fn by_order(at_least: bool, at_most: bool) -> Outcome
    ensures { result ≡ winner_by at_least at_most }
{
    match (at_least, at_most) {
        (true, true) => Outcome::P,
        (true, false) => Outcome::L,
        (false, true) => Outcome::R,
        (false, false) => Outcome::N,
    }
}

/// Who wins the game. The only error is out of memory.
pub fn outcome<B: BoardForms, S: CellStore<GameFacts<B>>>(
    alloc: Global,
    work: &mut Work<B, S>,
    a: Handle,
) -> Result<Outcome, AllocError>
    requires { IsGame (work_state S.state work.old) a }
    ensures outcome { IfOk result (λ o. o ≡ told (outcome (game_at (work_state S.state work.old) a))) }
    ensures spends { Spends 0 (work_state S.state work.old) (work_state S.state work.new) }
{
    let at_least = number_le(alloc, work, zero(), a)?;
    let at_most = le_number(alloc, work, a, zero())?;
    Ok(by_order(at_least, at_most))
}

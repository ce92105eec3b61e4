//! Numbers compared with the games of handles. No number is counted down, and none is claimed.
ghost use Rattle.std.specs.Prelude.{◌≡◌, IfOk};
ghost use Rattle.cg_form.specs.Game.{number};
ghost use Rattle.cg_form.specs.Order.{le};
ghost use Rattle.cg_cells.specs.Store.{Spends};
ghost use Rattle.cg_nodes.specs.Games.{IsGame, game_at};
ghost use Rattle.cg_canon.specs.Works.{work_state};

use crate::work::Work;
use cg_cells::CellStore;
use cg_dyadic::Dyadic;
use cg_nodes::{BoardForms, GameFacts, Handle};
use std::alloc::{AllocError, Global};

/// Whether x <= a. The only error is want of memory.
pub fn number_le<B: BoardForms, S: CellStore<GameFacts<B>>>(
    alloc: Global,
    work: &mut Work<B, S>,
    x: Dyadic,
    a: Handle,
) -> Result<bool, AllocError>
    requires { IsGame (work_state S.state work.old) a }
    ensures order { IfOk result (λ answer. answer ≡ le (number x) (game_at (work_state S.state work.old) a)) }
    ensures spends { Spends 0 (work_state S.state work.old) (work_state S.state work.new) }
{
    let game = work.game(alloc, a)?;
    Ok(work.arena().number_le(x, game))
}

/// Whether a <= x. The only error is want of memory.
pub fn le_number<B: BoardForms, S: CellStore<GameFacts<B>>>(
    alloc: Global,
    work: &mut Work<B, S>,
    a: Handle,
    x: Dyadic,
) -> Result<bool, AllocError>
    requires { IsGame (work_state S.state work.old) a }
    ensures order { IfOk result (λ answer. answer ≡ le (game_at (work_state S.state work.old) a) (number x)) }
    ensures spends { Spends 0 (work_state S.state work.old) (work_state S.state work.new) }
{
    let game = work.game(alloc, a)?;
    Ok(work.arena().le_number(game, x))
}

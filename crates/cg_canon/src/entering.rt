//! A game of a store enters an interner.
ghost use Rattle.std.specs.Prelude.{◌≡◌, IfOk};
ghost use Rattle.cg_form.specs.Canonical.{Canonical};
ghost use Rattle.cg_form.specs.Game.{node, number};
ghost use Rattle.cg_nodes.specs.Games.{IsGame, game_at};
ghost use Rattle.cg_arena.specs.Arena.{AreIndexes, IsIndex, game_of, games_of};
ghost use Rattle.cg_arena.specs.Summaries.{IsSummary};
ghost use Rattle.cg_canon.specs.Arena.{Begins};
ghost use Rattle.cg_canon.specs.Interners.{InternerHolds};

use crate::interner::Interner;
use crate::lossy_index::number_of_handle;
use crate::number_up_star::NumberUpStar;
use cg_arena::{Game, Summary};
use cg_cells::CellStore;
use cg_dyadic::Dyadic;
use cg_nodes::{BoardForms, GameFacts, Handle};
use std::alloc::AllocError;

/// Enters the handle's game, which is this number. The only error is want of memory.
pub(crate) fn enter_number<B: BoardForms, S: CellStore<GameFacts<B>>>(
    store: &S,
    interner: &mut Interner,
    handle: Handle,
    x: Dyadic,
) -> Result<Game, AllocError>
    requires holds { InternerHolds (S.state store.now) interner.old }
    requires game { IsGame (S.state store.now) handle }
    requires is { game_at (S.state store.now) handle ≡ number x }
    ensures holds { InternerHolds (S.state store.now) interner.new }
    ensures begins { Begins interner.old.arena interner.new.arena }
    ensures game { IfOk result (λ p. IsIndex interner.new.arena p × (game_of interner.new.arena p ≡ number x)) }
{
    if let Some(game) = interner.game(handle) {
        return Ok(game);
    }
    interner.by_id.reserve(1)?;
    interner.handles.reserve(1)?;
    let game = interner.arena.add_number(x)?;
    interner.name(handle, number_of_handle(handle));
    interner
        .recognized
        .enter(game, Some(NumberUpStar::of_number(x)));
    Ok(game)
}

/// Enters the handle's game, which has these options and this summary, and is looked for by this number. The only error
/// is want of memory.
#[inline(always)]
pub(crate) fn enter_game<B: BoardForms, S: CellStore<GameFacts<B>>>(
    store: &S,
    interner: &mut Interner,
    handle: Handle,
    lefts: &[Game],
    rights: &[Game],
    summary: &Summary,
    number: u32,
) -> Result<Game, AllocError>
    requires holds { InternerHolds (S.state store.now) interner.old }
    requires game { IsGame (S.state store.now) handle }
    requires canonical { Canonical (game_at (S.state store.now) handle) }
    requires lefts { AreIndexes interner.old.arena lefts.now }
    requires rights { AreIndexes interner.old.arena rights.now }
    requires is { game_at (S.state store.now) handle
        ≡ node (games_of interner.old.arena lefts.now) (games_of interner.old.arena rights.now) }
    requires summary { IsSummary (game_at (S.state store.now) handle) summary.now }
    ensures holds { InternerHolds (S.state store.now) interner.new }
    ensures begins { Begins interner.old.arena interner.new.arena }
    ensures game { IfOk result (λ p. IsIndex interner.new.arena p
        × (game_of interner.new.arena p ≡ game_at (S.state store.now) handle)) }
{
    if let Some(game) = interner.game(handle) {
        return Ok(game);
    }
    interner.by_id.reserve(1)?;
    interner.handles.reserve(1)?;
    let game = interner.arena.add_game(lefts, rights, summary)?;
    interner.name(handle, number);
    let parts = interner.recognized.seen(lefts, rights);
    interner.recognized.enter(game, parts);
    Ok(game)
}

//! The games of handles, each found once in a work.
ghost use Rattle.std.specs.Prelude.{◌≡◌, IfOk, []};
ghost use Rattle.cg_cells.specs.Store.{Spends};
ghost use Rattle.cg_nodes.specs.Games.{AreGames, IsGame, IsList, game_at, games_at, listed};
ghost use Rattle.cg_arena.specs.Arena.{IsIndex, StandFor, game_of};
ghost use Rattle.cg_canon.specs.Arena.{Begins};
ghost use Rattle.cg_canon.specs.Interners.{InternerHolds};

use crate::entering::{enter_game, enter_number};
use crate::interner::{GameList, Interner, number_of_form};
use cg_arena::{Game, summary_of_lists};
use cg_cells::CellStore;
use cg_nodes::{BoardForms, GameFacts, Handle, ListId, Reading, head, read};
use smallvec::SmallVec;
use std::alloc::{AllocError, Global};

/// The games of a list.
#[cycle(game)]
fn games_of_list<B: BoardForms, S: CellStore<GameFacts<B>>>(
    alloc: Global,
    store: &mut S,
    interner: &mut Interner,
    list: ListId,
) -> Result<GameList, AllocError>
    requires holds { InternerHolds (S.state store.old) interner.old }
    requires list { IsList (S.state store.old) list }
    ensures holds { InternerHolds (S.state store.new) interner.new }
    ensures begins { Begins interner.old.arena interner.new.arena }
    ensures games { IfOk result (λ r. StandFor interner.new.arena r.items (listed (S.state store.old) list)) }
    ensures spends { Spends 0 (S.state store.old) (S.state store.new) }
{
    let mut games = SmallVec::new(alloc);
    let mut rest = list;
    while let Some(top) = head(store, rest) {
        let game = game_of_handle(alloc, store, interner, top.first)?;
        games.push(game)?;
        rest = top.rest;
    }
    Ok(games)
}

/// The game of the handle, which isn't in the arena yet.
#[cycle(game)]
fn new_game<B: BoardForms, S: CellStore<GameFacts<B>>>(
    alloc: Global,
    store: &mut S,
    interner: &mut Interner,
    handle: Handle,
) -> Result<Game, AllocError>
    requires holds { InternerHolds (S.state store.old) interner.old }
    requires game { IsGame (S.state store.old) handle }
    ensures holds { InternerHolds (S.state store.new) interner.new }
    ensures begins { Begins interner.old.arena interner.new.arena }
    ensures game { IfOk result (λ p. IsIndex interner.new.arena p
        × (game_of interner.new.arena p ≡ game_at (S.state store.old) handle)) }
    ensures spends { Spends 0 (S.state store.old) (S.state store.new) }
{
    match read(store, handle) {
        Reading::Number(x) => enter_number(store, interner, handle, x),
        Reading::Game(lefts, rights) => {
            let low = games_of_list(alloc, store, interner, lefts)?;
            let high = games_of_list(alloc, store, interner, rights)?;
            let summary = summary_of_lists(&interner.arena, low.as_slice(), high.as_slice());
            enter_game(
                store,
                interner,
                handle,
                low.as_slice(),
                high.as_slice(),
                &summary,
                number_of_form(low.as_slice(), high.as_slice()),
            )
        }
    }
}

/// The game of the handle.
#[cycle(game)]
#[inline(always)]
pub(crate) fn game_of_handle<B: BoardForms, S: CellStore<GameFacts<B>>>(
    alloc: Global,
    store: &mut S,
    interner: &mut Interner,
    handle: Handle,
) -> Result<Game, AllocError>
    requires holds { InternerHolds (S.state store.old) interner.old }
    requires game { IsGame (S.state store.old) handle }
    ensures holds { InternerHolds (S.state store.new) interner.new }
    ensures begins { Begins interner.old.arena interner.new.arena }
    ensures game { IfOk result (λ p. IsIndex interner.new.arena p
        × (game_of interner.new.arena p ≡ game_at (S.state store.old) handle)) }
    ensures spends { Spends 0 (S.state store.old) (S.state store.new) }
{
    if let Some(game) = interner.game(handle) {
        return Ok(game);
    }
    new_game(alloc, store, interner, handle)
}

/// Puts the games of the handles into the list, which is empty. So they stand where they are read: a
/// list that was just written and is moved is read by wider words than it was written by, and the processor waits for
/// that.
#[inline(always)]
pub(crate) fn put_games<B: BoardForms, S: CellStore<GameFacts<B>>>(
    alloc: Global,
    store: &mut S,
    interner: &mut Interner,
    handles: &[Handle],
    games: &mut GameList,
) -> Result<(), AllocError>
    requires empty { games.old.items ≡ [] }
    requires holds { InternerHolds (S.state store.old) interner.old }
    requires games { AreGames (S.state store.old) handles.now }
    ensures holds { InternerHolds (S.state store.new) interner.new }
    ensures begins { Begins interner.old.arena interner.new.arena }
    ensures games { IfOk result (λ _. StandFor interner.new.arena games.new.items (games_at (S.state store.old) handles.now)) }
    ensures spends { Spends 0 (S.state store.old) (S.state store.new) }
{
    games.reserve(handles.len())?;
    for handle in handles {
        let game = game_of_handle(alloc, store, interner, *handle)?;
        games.push_reserved(game);
    }
    Ok(())
}

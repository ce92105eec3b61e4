//! The positions of the game of a handle.
ghost use Rattle.std.specs.Prelude.{◌≡◌, ◌<◌, ◌≤◌, ◌∷◌, ◌++◌, [], IfOk, OnOk, IsTrue, ◌↔◌, length, Err};
ghost use Rattle.cg_form.specs.Extended.{extended, positions_before};
ghost use Rattle.cg_form.specs.Game.{of_list};
ghost use Rattle.cg_cells.specs.Meaning.{Has};
ghost use Rattle.cg_cells.specs.Store.{Spends};
ghost use Rattle.cg_nodes.specs.Games.{IsGame, game_at, games_at, IsList, listed, StandFor, AreDistinct};
ghost use Rattle.cg_form.specs.Positions.{all_positions, positions_in, positions_of};
ghost use Rattle.cg_nodes.specs.Walks.{AreFound, AreFoundAfter};

use crate::found::Found;
use crate::{BoardForms, GameFacts, Handle, Handles, ListId, PositionsFault, Reading, head, read};
use cg_cells::CellStore;
use std::alloc::Global;

// Appends the positions of the game. If the game was found before, so were all of its positions.
#[cycle(walk)]
fn walk_game<B: BoardForms, S: CellStore<GameFacts<B>>>(
    store: &mut S,
    found: &mut Found,
    handle: Handle,
    limit: u64,
) -> Result<(), PositionsFault>
    requires game { IsGame (S.state store.old) handle }
    requires found { AreFound (S.state store.old) found.old }
    requires within { length found.old ≤ limit }
    ensures found { OnOk result (
        AreFoundAfter (S.state store.old) (S.state store.new) found.old found.new (all_positions (game_at (S.state store.old) handle))) }
    ensures within { OnOk result (length found.new ≤ limit) }
    ensures refused { result ≡ Err PositionsFault.Positions
        → limit < length (extended (games_at (S.state store.old) found.old)
        (all_positions (game_at (S.state store.old) handle))) }
    ensures spends { Spends 0 (S.state store.old) (S.state store.new) }
{
    store.apart();
    if found.has(handle) {
        return Ok(());
    }
    walk_options(store, found, handle, limit)?;
    found.add(handle, limit)
}

// Appends the positions of the options. A number has no positions but itself.
#[cycle(walk)]
fn walk_options<B: BoardForms, S: CellStore<GameFacts<B>>>(
    store: &mut S,
    found: &mut Found,
    handle: Handle,
    limit: u64,
) -> Result<(), PositionsFault>
    requires game { IsGame (S.state store.old) handle }
    requires found { AreFound (S.state store.old) found.old }
    requires within { length found.old ≤ limit }
    ensures found { OnOk result (
        AreFoundAfter (S.state store.old) (S.state store.new) found.old found.new (positions_before (game_at (S.state store.old) handle))) }
    ensures within { OnOk result (length found.new ≤ limit) }
    ensures refused { result ≡ Err PositionsFault.Positions
        → limit < length (extended (games_at (S.state store.old) found.old)
        (positions_before (game_at (S.state store.old) handle))) }
    ensures spends { Spends 0 (S.state store.old) (S.state store.new) }
{
    match read(store, handle) {
        Reading::Number(_) => Ok(()),
        Reading::Game(lefts, rights) => {
            walk_list(store, found, lefts, limit)?;
            walk_list(store, found, rights, limit)
        }
    }
}

#[cycle(walk)]
fn walk_list<B: BoardForms, S: CellStore<GameFacts<B>>>(
    store: &mut S,
    found: &mut Found,
    list: ListId,
    limit: u64,
) -> Result<(), PositionsFault>
    requires list { IsList (S.state store.old) list }
    requires found { AreFound (S.state store.old) found.old }
    requires within { length found.old ≤ limit }
    ensures found { OnOk result (
        AreFoundAfter (S.state store.old) (S.state store.new) found.old found.new (positions_in (of_list (listed (S.state store.old) list)))) }
    ensures within { OnOk result (length found.new ≤ limit) }
    ensures refused { result ≡ Err PositionsFault.Positions
        → limit < length (extended (games_at (S.state store.old) found.old)
        (positions_in (of_list (listed (S.state store.old) list)))) }
    ensures spends { Spends 0 (S.state store.old) (S.state store.new) }
{
    let mut left = list;
    while let Some(top) = head(store, left) {
        walk_game(store, found, top.first, limit)?;
        left = top.rest;
    }
    Ok(())
}

/// The handles of the positions of the game, without repeats, in order of first occurrence: a number's only position is
/// itself; another game's are those of each Left option, those of each Right option, then the game itself. `Positions`
/// says that there are more than `limit`.
pub fn positions<B: BoardForms, S: CellStore<GameFacts<B>>>(
    alloc: Global,
    store: &mut S,
    handle: Handle,
    limit: u64,
) -> Result<Handles, PositionsFault>
    requires { IsGame (S.state store.old) handle }
    ensures positions { IfOk result (λ hs.
        StandFor (S.state store.new) hs (positions_of (game_at (S.state store.old) handle))) }
    ensures distinct { IfOk result AreDistinct }
    ensures within { OnOk result (length (positions_of (game_at (S.state store.old) handle)) ≤ limit) }
    ensures refused { result ≡ Err PositionsFault.Positions
        → limit < length (positions_of (game_at (S.state store.old) handle)) }
    ensures spends { Spends 0 (S.state store.old) (S.state store.new) }
{
    let mut found = Found::new(alloc)?;
    walk_game(store, &mut found, handle, limit)?;
    Ok(found.into_handles())
}

//! What games of lists of handles are, in an arena.
ghost use Rattle.std.specs.Prelude.{◌≡◌, IfOk, []};
ghost use Rattle.cg_cells.specs.Store.{Spends};
ghost use Rattle.cg_nodes.specs.Games.{AreGames, games_at};
ghost use Rattle.cg_arena.specs.Arena.{StandFor};
ghost use Rattle.cg_canon.specs.Interners.{InternerHolds};

use crate::indexing::put_games;
use crate::interner::Interner;
use crate::made::are_same;
use cg_arena::Form;
use cg_cells::CellStore;
use cg_nodes::{BoardForms, GameFacts, Handle};
use smallvec::SmallVec;
use std::alloc::{AllocError, Global};

/// Puts the games of two lists of options into a form that has none. Both lists of a nimber are the same, and are
/// gone through once.
#[inline(always)]
pub(crate) fn put_both<B: BoardForms, S: CellStore<GameFacts<B>>>(
    alloc: Global,
    store: &mut S,
    interner: &mut Interner,
    lefts: &[Handle],
    rights: &[Handle],
    form: &mut Form,
) -> Result<(), AllocError>
    requires holds { InternerHolds (S.state store.old) interner.old }
    requires lefts { AreGames (S.state store.old) lefts.now }
    requires rights { AreGames (S.state store.old) rights.now }
    requires no_lefts { form.old.lefts.items ≡ [] }
    requires no_rights { form.old.rights.items ≡ [] }
    ensures holds { InternerHolds (S.state store.new) interner.new }
    ensures lefts { IfOk result (λ _. StandFor interner.new.arena form.new.lefts.items (games_at (S.state store.old) lefts.now)) }
    ensures rights { IfOk result (λ _. StandFor interner.new.arena form.new.rights.items (games_at (S.state store.old) rights.now)) }
    ensures spends { Spends 0 (S.state store.old) (S.state store.new) }
{
    put_games(alloc, store, interner, lefts, &mut form.lefts)?;
    if are_same(lefts, rights) {
        form.rights = SmallVec::from_slice(alloc, form.lefts.as_slice())?;
        return Ok(());
    }
    put_games(alloc, store, interner, rights, &mut form.rights)?;
    Ok(())
}

/// How the canonical form of a game of two lists is found.
#[derive(Clone, Copy)]
pub(crate) enum Way {
    /// By a search.
    Search,
    /// It is the game as it stands.
    AsGiven,
}

//! The arena of a work: the games that it has met.
//!
//! A public call on handles asks for games where it begins and for a handle where it ends. The arena only grows, so
//! what holds of a game stays.
ghost use Rattle.std.specs.Prelude.{◌≡◌, ℕ, IfOk};
ghost use Rattle.cg_cells.specs.Store.{Spends};
ghost use Rattle.cg_nodes.specs.Games.{IsGame, StandsFor, game_at};
ghost use Rattle.cg_arena.specs.Arena.{IsIndex, game_of};
ghost use Rattle.cg_canon.specs.Arena.{Begins, IsAt};
ghost use Rattle.cg_canon.specs.Works.{work_state};

use crate::indexing::game_of_handle;
use crate::work::Work;
use cg_arena::{Arena, Game};
use cg_cells::CellStore;
use cg_nodes::{BoardForms, GameFacts, Handle};
use std::alloc::{AllocError, Global};

impl<'a, B: BoardForms, S: CellStore<GameFacts<B>>> Work<'a, B, S> {
    /// The games.
    #[inline(always)]
    pub fn arena(&self) -> &Arena
        ensures { result.now ≡ self.now.arena }
    {
        &self.cache.memo.interner.arena
    }

    /// The handle's game, which enters the arena if it isn't found there. The only error is want of
    /// memory.
    pub fn game(&mut self, alloc: Global, a: Handle) -> Result<Game, AllocError>
        requires { IsGame (work_state S.state self.old) a }
        ensures game { IfOk result (λ i. IsAt self.new.arena i (game_at (work_state S.state self.old) a)) }
        ensures begins { Begins self.old.arena self.new.arena }
        ensures spends { Spends 0 (work_state S.state self.old) (work_state S.state self.new) }
    {
        game_of_handle(alloc, self.store, &mut self.cache.memo.interner, a)
    }

    /// The handle of the game.
    #[inline(always)]
    pub fn handle(&self, game: Game) -> Handle
        requires { IsIndex self.now.arena game }
        ensures { StandsFor (work_state S.state self.now) result (game_of self.now.arena game) }
    {
        self.cache.memo.interner.handle(game)
    }

    /// Fact: games at different places are different. The call does nothing.
    #[inline(always)]
    pub fn distinct(&self)
        ensures { (i j : ℕ) → IsIndex self.now.arena i → IsIndex self.now.arena j
            → game_of self.now.arena i ≡ game_of self.now.arena j → i ≡ j }
    {
        self.store.apart();
    }
}

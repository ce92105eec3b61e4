//! What is written in the form of a game.
ghost use Rattle.std.specs.Prelude.{IfOk, OnOk};
ghost use Rattle.cg_form.specs.Canonical.{Canonical};
ghost use Rattle.cg_cells.specs.Store.{Spends};
ghost use Rattle.cg_nodes.specs.Games.{IsGame, StandFor, game_at};
ghost use Rattle.cg_arena.specs.Arena.{AreIndexes, games_of};
ghost use Rattle.cg_canon.specs.Written.{IsWrittenAs};
ghost use Rattle.cg_canon.specs.Works.{work_state};

use crate::interner::{HandleList, put_handles};
use crate::work::Work;
use cg_arena::{Game, Read};
use cg_cells::CellStore;
use cg_dyadic::Dyadic;
use cg_nodes::{BoardForms, GameFacts, Handle};
use smallvec::SmallVec;
use std::alloc::{AllocError, Global};

/// What is written in the form of a game.
#[derive(Drop)]
pub enum Written {
    /// A number.
    Number(Dyadic),
    /// The Left and the Right options of a game that equals no number, in their order.
    Options(SmallVec<Handle, 8>, SmallVec<Handle, 8>),
}

impl<'a, B: BoardForms, S: CellStore<GameFacts<B>>> Work<'a, B, S> {
    /// The handles of the games, in their order. The only error is want of memory.
    fn handles_at(&self, alloc: Global, games: &[Game]) -> Result<HandleList, AllocError>
        requires { AreIndexes self.now.arena games.now }
        ensures { IfOk result (λ all. StandFor (work_state S.state self.now) all.items (games_of self.now.arena games.now)) }
    {
        let mut all = SmallVec::new(alloc);
        put_handles(&*self.store, &self.cache.memo.interner, games, &mut all)?;
        Ok(all)
    }

    /// What is written in the form of the game, which is canonical: a number, or the handles of the Left and of the
    /// Right options. A game that was met before is read from the arena, and not from its cells. The only error is want
    /// of memory.
    pub fn written(&mut self, alloc: Global, a: Handle) -> Result<Written, AllocError>
        requires { IsGame (work_state S.state self.old) a }
        ensures written { IfOk result (λ r. IsWrittenAs (work_state S.state self.new) r (game_at (work_state S.state self.old) a)) }
        ensures canonical { OnOk result (Canonical (game_at (work_state S.state self.old) a)) }
        ensures spends { Spends 0 (work_state S.state self.old) (work_state S.state self.new) }
    {
        let game = self.game(alloc, a)?;
        match self.arena().read(game) {
            Read::Number(x) => Ok(Written::Number(x)),
            Read::Options(left_games, right_games) => {
                let lefts = self.handles_at(alloc, left_games)?;
                let rights = self.handles_at(alloc, right_games)?;
                Ok(Written::Options(lefts, rights))
            }
        }
    }
}

//! The order of two games.
ghost use Rattle.std.specs.Prelude.{◌≡◌, IfOk};
ghost use Rattle.cg_form.specs.Order.{le};
ghost use Rattle.cg_cells.specs.Store.{Spends};
ghost use Rattle.cg_nodes.specs.Games.{IsGame, game_at};
ghost use Rattle.cg_arena.specs.Arena.{IsIndex, game_of};
ghost use Rattle.cg_canon.specs.Works.{work_state};

use crate::work::Work;
use cg_arena::{Game, at_most};
use cg_cells::CellStore;
use cg_nodes::{BoardForms, GameFacts, Handle};
use std::alloc::{AllocError, Global};

/// Whether a <= b: no Left option of a is at least b, and no Right option of b is at most a. The only error is want of
/// memory. (Siegel, Combinatorial Game Theory (2013), I.1 and II.1.)
pub fn le<B: BoardForms, S: CellStore<GameFacts<B>>>(
    alloc: Global,
    work: &mut Work<B, S>,
    a: Handle,
    b: Handle,
) -> Result<bool, AllocError>
    requires a { IsGame (work_state S.state work.old) a }
    requires b { IsGame (work_state S.state work.old) b }
    ensures order { IfOk result (λ answer. answer
        ≡ le (game_at (work_state S.state work.old) a) (game_at (work_state S.state work.old) b)) }
    ensures spends { Spends 0 (work_state S.state work.old) (work_state S.state work.new) }
{
    let first = work.game(alloc, a)?;
    let second = work.game(alloc, b)?;
    work.le(first, second)
}

impl<'a, B: BoardForms, S: CellStore<GameFacts<B>>> Work<'a, B, S> {
    /// Whether a <= b. The only error is want of memory.
    pub fn le(&mut self, a: Game, b: Game) -> Result<bool, AllocError>
        requires a { IsIndex self.old.arena a }
        requires b { IsIndex self.old.arena b }
        ensures order { IfOk result (λ answer. answer ≡ le (game_of self.old.arena a) (game_of self.old.arena b)) }
        ensures same { self.new ≡ self.old }
    {
        let interner = &mut self.cache.memo.interner;
        at_most(&interner.arena, &mut interner.answers, true, a, b)
    }
}

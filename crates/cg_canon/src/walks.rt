//! Walks of a work over its arena.
ghost use Rattle.std.specs.Prelude.{◌≡◌, ◌⊎◌, ◌<◌, ◌≤◌, ◌^◌, IfErr, IfOk, OnOk, Err, length};
ghost use Rattle.cg_form.specs.Positions.{positions_of};
ghost use Rattle.cg_arena.specs.Arena.{IsIndex, game_of};
ghost use Rattle.cg_canon.specs.Walk.{IsWalk};

use crate::fault::ValueFault;
use crate::walk::Walk;
use crate::walking::walk_game;
use crate::work::Work;
use cg_arena::Game;
use cg_cells::CellStore;
use cg_nodes::{BoardForms, GameFacts, PositionsFault};
use std::alloc::{AllocError, Global};

/// Makes the marks so many, unless there are more.
fn mark_all(marks: &mut Vec<usize>, count: usize) -> Result<(), AllocError>
    ensures { OnOk result (count ≤ length marks.new.items) }
{
    if count > marks.len() {
        marks.resize(count, 0)?;
    }
    Ok(())
}

impl<'a, B: BoardForms, S: CellStore<GameFacts<B>>> Work<'a, B, S> {
    /// The positions of the game. `Positions` comes exactly where there are more than this limit, and
    /// never at a limit of 2^63 or more; the other error is want of memory.
    pub fn walk_within(
        &mut self,
        alloc: Global,
        game: Game,
        limit: u64,
    ) -> Result<Walk, PositionsFault>
        requires { IsIndex self.old.arena game }
        ensures walk { IfOk result (λ w. IsWalk self.old.arena w (positions_of (game_of self.old.arena game))) }
        ensures within { OnOk result (length (positions_of (game_of self.old.arena game)) ≤ limit) }
        ensures refused { result ≡ Err PositionsFault.Positions
            → (limit < length (positions_of (game_of self.old.arena game))) × (limit < 2 ^ 63) }
        ensures same { self.new ≡ self.old }
    {
        mark_all(
            &mut self.cache.marks,
            self.cache.memo.interner.arena.count(),
        )?;
        let mut walk = Walk::new(alloc)?;
        self.store.apart();
        walk_game(
            &self.cache.memo.interner.arena,
            &mut self.cache.marks,
            &mut walk,
            game,
            limit,
        )?;
        Ok(walk)
    }

    /// The positions of the game. `Positions` comes exactly where there are more than the work's limit;
    /// the other error is want of memory.
    pub fn walk(&mut self, alloc: Global, game: Game) -> Result<Walk, ValueFault>
        requires { IsIndex self.old.arena game }
        ensures walk { IfOk result (λ w. IsWalk self.old.arena w (positions_of (game_of self.old.arena game))) }
        ensures within { OnOk result (length (positions_of (game_of self.old.arena game)) ≤ self.old.limit) }
        ensures refused { IfErr result (λ fault. (fault ≡ ValueFault.Memory) ⊎ ((fault ≡ ValueFault.Positions)
            × (self.old.limit < length (positions_of (game_of self.old.arena game))))) }
        ensures same { self.new ≡ self.old }
    {
        let limit = self.limit();
        match self.walk_within(alloc, game, limit) {
            Ok(walk) => Ok(walk),
            Err(PositionsFault::Positions) => Err(ValueFault::Positions),
            Err(PositionsFault::Memory) => Err(ValueFault::Memory),
        }
    }
}

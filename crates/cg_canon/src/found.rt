//! What a work finds out of games, and makes, with the help of its cache.
ghost use Rattle.std.specs.Prelude.{◌≡◌, ◌≤◌, IfSome, IfOk};
ghost use Rattle.cg_form.specs.Game.{node};
ghost use Rattle.cg_cells.specs.Store.{Spends};
ghost use Rattle.cg_nodes.specs.Can.{can};
ghost use Rattle.cg_nodes.specs.Games.{AreGames, IsGame, game_at, games_at};
ghost use Rattle.cg_arena.specs.Costs.{IsCharge};
ghost use Rattle.cg_canon.specs.Added.{IsKnownSum};
ghost use Rattle.cg_canon.specs.Made.{FormGiven};
ghost use Rattle.cg_canon.specs.MadeForms.{IsFormOf};
ghost use Rattle.cg_canon.specs.Ways.{IsWay};
ghost use Rattle.cg_canon.specs.Works.{IsUnspent, work_state};

use crate::fault::ValueFault;
use crate::making_at::make_canonical;
use crate::memo::KnownSum;
use crate::value::Way;
use crate::work::Work;
use cg_arena::Charge;
use cg_cells::CellStore;
use cg_nodes::{BoardForms, GameFacts, Handle};
use std::alloc::{AllocError, Global};

impl<'a, B: BoardForms, S: CellStore<GameFacts<B>>> Work<'a, B, S> {
    /// What the game's item is charged by. The only error is want of memory.
    #[inline(always)]
    pub(crate) fn charge_of(&mut self, alloc: Global, a: Handle) -> Result<Charge, AllocError>
        requires { IsGame (work_state S.state self.old) a }
        ensures charge { IfOk result (λ p. IsCharge (game_at (work_state S.state self.old) a) p) }
        ensures same { IsUnspent (work_state S.state self.old) (work_state S.state self.new) }
        ensures spends { Spends 0 (work_state S.state self.old) (work_state S.state self.new) }
    {
        let game = self.game(alloc, a)?;
        Ok(self.arena().charge(game))
    }

    /// Makes the item of the canonical form of the game with these options, with a cost of `extra` more.
    pub(crate) fn make_value(
        &mut self,
        alloc: Global,
        lefts: &[Handle],
        rights: &[Handle],
        way: Way,
        extra: u64,
    ) -> Result<Handle, ValueFault>
        requires extra { extra ≤ 8 }
        requires lefts { AreGames (work_state S.state self.old) lefts.now }
        requires rights { AreGames (work_state S.state self.old) rights.now }
        requires way { IsWay way (games_at (work_state S.state self.old) lefts.now)
            (games_at (work_state S.state self.old) rights.now) }
        ensures { let W = work_state S.state self.old in FormGiven W (work_state S.state self.new)
            (can (node (games_at W lefts.now) (games_at W rights.now))) extra result }
    {
        make_canonical(
            alloc,
            self.store,
            &mut self.cache.memo.interner,
            &mut self.meter,
            lefts,
            rights,
            way,
            extra,
        )
    }

    /// The sum of the two that was found, if one was.
    pub(crate) fn added(&self, a: Handle, b: Handle) -> Option<KnownSum>
        ensures { IfSome result (IsKnownSum (S.state self.now.store.now) a b) }
    {
        self.cache.memo.added(a.id().number(), b.id().number())
    }

    /// Keeps the sum of the two.
    pub(crate) fn keep_added(
        &mut self,
        a: Handle,
        b: Handle,
        known: KnownSum,
    ) -> Result<(), AllocError>
        requires { IsKnownSum (S.state self.old.store.now) a b known }
        ensures { self.new ≡ self.old }
    {
        self.cache
            .memo
            .keep_added(a.id().number(), b.id().number(), known)?;
        Ok(())
    }

    /// The form that was made from these options, whose number this is, if it is kept.
    pub(crate) fn made_from(
        &self,
        number: u32,
        lefts: &[Handle],
        rights: &[Handle],
    ) -> Option<Handle>
        ensures { IfSome result (IsFormOf (S.state self.now.store.now) lefts.now rights.now) }
    {
        self.cache.made.find(number, lefts, rights)
    }

    /// Keeps the form that was made from these options, whose number this is.
    pub(crate) fn keep_made(
        &mut self,
        number: u32,
        lefts: &[Handle],
        rights: &[Handle],
        form: Handle,
    ) -> Result<(), AllocError>
        requires { IsFormOf (S.state self.old.store.now) lefts.now rights.now form }
        ensures { self.new ≡ self.old }
    {
        self.cache.made.keep(number, lefts, rights, form)?;
        Ok(())
    }
}

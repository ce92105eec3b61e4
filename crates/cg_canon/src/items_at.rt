//! Items of games of the arena.
ghost use Rattle.std.specs.Prelude.{◌≡◌, ◌≤◌, IfOk};
ghost use Rattle.cg_form.specs.Canonical.{Canonical};
ghost use Rattle.cg_form.specs.Game as tree;
ghost use Rattle.cg_form.specs.Game.{node};
ghost use Rattle.cg_nodes.specs.Can.{can};
ghost use Rattle.cg_arena.specs.Arena.{AreIndexes, IsIndex, game_of, games_of};
ghost use Rattle.cg_arena.specs.Terms.{NoneComparableByTerm};
ghost use Rattle.cg_canon.specs.Items.{made};
ghost use Rattle.cg_canon.specs.ItemsAt.{IsValue, ItemAt};
ghost use Rattle.cg_canon.specs.NumberItems.{number_made};
ghost use Rattle.cg_canon.specs.Works.{work_state};

use crate::fault::ValueFault;
use crate::making_at::{canonical_at, given_at, known_at, made_game, number_at};
use crate::work::Work;
use cg_arena::{FirstTerm, Game};
use cg_cells::CellStore;
use cg_dyadic::Dyadic;
use cg_nodes::{BoardForms, GameFacts};
use std::alloc::Global;

impl<'a, B: BoardForms, S: CellStore<GameFacts<B>>> Work<'a, B, S> {
    /// Makes the item of the game again, with a cost of `extra` more, where `extra` is at most 8.
    ///
    /// `Depth` comes exactly where its depth is above 512, and else `Full` exactly where its cost and `extra` together
    /// bring the total cost above the share. It takes no memory.
    #[inline(always)]
    pub fn make_again(&mut self, game: Game, extra: u64) -> Result<Game, ValueFault>
        requires extra { extra ≤ 8 }
        requires game { IsIndex self.old.arena game }
        ensures item { let g = game_of self.old.arena game in ItemAt (work_state S.state self.old) (work_state S.state self.new)
            self.old.arena self.new.arena (made g extra) g extra result }
        ensures own { IfOk result (λ i. i ≡ game) }
        ensures arena { self.new.arena ≡ self.old.arena }
    {
        made_game(known_at(
            &*self.store,
            &self.cache.memo.interner,
            &mut self.meter,
            game,
            extra,
        ))
    }

    /// Makes the item of a number, with a cost of `extra` more, where `extra` is at most 8. None stands for a number
    /// out of range.
    ///
    /// `Range` comes exactly for None, and `Full` exactly where its cost and `extra` together bring the total cost
    /// above the share.
    pub fn make_number(&mut self, x: Option<Dyadic>, extra: u64) -> Result<Game, ValueFault>
        requires { extra ≤ 8 }
        ensures { (form : tree.Game) → IsValue x form → ItemAt (work_state S.state self.old) (work_state S.state self.new)
            self.old.arena self.new.arena (number_made x extra) form extra result }
    {
        match x {
            Some(value) => made_game(number_at(
                self.store,
                &mut self.cache.memo.interner,
                &mut self.meter,
                value,
                extra,
            )),
            None => Err(ValueFault::Range),
        }
    }

    /// Makes the item of a game that is canonical as it is given, with a cost of `extra`
    /// more, where `extra` is at most 8. `Depth` and `Full` come as in [`Work::make_again`].
    pub fn make_given(
        &mut self,
        alloc: Global,
        lefts: &[Game],
        rights: &[Game],
        extra: u64,
    ) -> Result<Game, ValueFault>
        requires extra { extra ≤ 8 }
        requires lefts { AreIndexes self.old.arena lefts.now }
        requires rights { AreIndexes self.old.arena rights.now }
        requires canonical { Canonical (node (games_of self.old.arena lefts.now) (games_of self.old.arena rights.now)) }
        ensures { let g = node (games_of self.old.arena lefts.now) (games_of self.old.arena rights.now) in
            ItemAt (work_state S.state self.old) (work_state S.state self.new) self.old.arena self.new.arena (made g extra) g extra result }
    {
        made_game(given_at(
            alloc,
            self.store,
            &mut self.cache.memo.interner,
            &mut self.meter,
            lefts,
            rights,
            extra,
        ))
    }

    /// Makes the item of the canonical form of a sum, with a cost of `extra` more, where
    /// `extra` is at most 8. On each side, first stand the options that come from one term, and then those that come
    /// from the other. No two that come from the same term may be comparable.
    ///
    /// `Range` comes exactly where the game equals a number out of range; else `Depth` and `Full` as in
    /// [`Work::make_again`].
    pub fn make_of_terms(
        &mut self,
        alloc: Global,
        lefts: &[Game],
        rights: &[Game],
        first_term: FirstTerm,
        extra: u64,
    ) -> Result<Game, ValueFault>
        requires extra { extra ≤ 8 }
        requires lefts { AreIndexes self.old.arena lefts.now }
        requires rights { AreIndexes self.old.arena rights.now }
        requires lefts_apart { NoneComparableByTerm first_term.lefts (games_of self.old.arena lefts.now) }
        requires rights_apart { NoneComparableByTerm first_term.rights (games_of self.old.arena rights.now) }
        ensures { let g = can (node (games_of self.old.arena lefts.now) (games_of self.old.arena rights.now)) in
            ItemAt (work_state S.state self.old) (work_state S.state self.new) self.old.arena self.new.arena (made g extra) g extra result }
    {
        made_game(canonical_at(
            alloc,
            self.store,
            &mut self.cache.memo.interner,
            &mut self.meter,
            lefts,
            rights,
            Some(first_term),
            extra,
        ))
    }
}

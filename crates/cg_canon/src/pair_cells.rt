//! The cells on which sums are noted, for other workers too.
ghost use Rattle.std.specs.Prelude.{◌≡◌, ◌≤◌, IfOk, IfSome};
ghost use Rattle.cg_cells.specs.Store.{Spends};
ghost use Rattle.cg_form.specs.Game as tree;
ghost use Rattle.cg_form.specs.Sum.{sum as sum_of};
ghost use Rattle.cg_nodes.specs.Can.{can};
ghost use Rattle.cg_nodes.specs.Games.{IsGame, game_at};
ghost use Rattle.cg_nodes.specs.Spelled.{game_meaning};
ghost use Rattle.cg_arena.specs.Arena.{IsIndex, game_of};
ghost use Rattle.cg_canon.specs.Arena.{Begins, IsAt};
ghost use Rattle.cg_canon.specs.Notes.{IsNoteOf};
ghost use Rattle.cg_canon.specs.Works.{work_state};

use crate::work::Work;
use cg_arena::Game;
use cg_cells::{CellStore, Id, Key};
use cg_nodes::{BoardForms, GameFacts, Handle};
use std::alloc::{AllocError, Global};

/// The cell of the pair of the two handles, on which their sum is noted: one cell for either order of the
/// two. It spends one claim.
fn pair<B: BoardForms, S: CellStore<GameFacts<B>>>(store: &mut S, a: Handle, b: Handle) -> Id
    requires spare { 1 ≤ (S.state store.old).spare }
    requires a { IsGame (S.state store.old) a }
    requires b { IsGame (S.state store.old) b }
    ensures note { IsNoteOf (game_meaning B.form) (S.state store.new) result
        (sum_of (game_at (S.state store.old) a) (game_at (S.state store.old) b)) }
    ensures spends { Spends 1 (S.state store.old) (S.state store.new) }
{
    if a.id().number() <= b.id().number() {
        ordered_pair(store, a, b)
    } else {
        ordered_pair(store, b, a)
    }
}

// The cell of the pair of the two handles, the lesser id first.
fn ordered_pair<B: BoardForms, S: CellStore<GameFacts<B>>>(
    store: &mut S,
    low: Handle,
    high: Handle,
) -> Id
    requires order { low ≤ high }
    requires spare { 1 ≤ (S.state store.old).spare }
    requires low { IsGame (S.state store.old) low }
    requires high { IsGame (S.state store.old) high }
    ensures note { IsNoteOf (game_meaning B.form) (S.state store.new) result
        (sum_of (game_at (S.state store.old) low) (game_at (S.state store.old) high)) }
    ensures spends { Spends 1 (S.state store.old) (S.state store.new) }
{
    let key = Key::pair(low.id(), high.id());
    store.claim(key)
}

impl<'a, B: BoardForms, S: CellStore<GameFacts<B>>> Work<'a, B, S> {
    /// The cell of the pair of the two games, on which their sum is noted: one cell for either order of the two. It
    /// spends one claim.
    pub fn pair_cell(&mut self, a: Game, b: Game) -> Id
        requires spare { 1 ≤ (work_state S.state self.old).spare }
        requires a { IsIndex self.old.arena a }
        requires b { IsIndex self.old.arena b }
        ensures note { IsNoteOf (game_meaning B.form) (work_state S.state self.new) result
            (sum_of (game_of self.old.arena a) (game_of self.old.arena b)) }
        ensures spends { Spends 1 (work_state S.state self.old) (work_state S.state self.new) }
        ensures arena { self.new.arena ≡ self.old.arena }
    {
        let first = self.handle(a);
        let second = self.handle(b);
        pair(self.store, first, second)
    }

    /// The form that is noted on the cell, if one is. The only error is want of memory.
    pub fn noted_sum(&mut self, alloc: Global, cell: Id) -> Result<Option<Game>, AllocError>
        requires { (g : tree.Game) × IsNoteOf (game_meaning B.form) (work_state S.state self.old) cell g }
        ensures sum { (g : tree.Game) → IsNoteOf (game_meaning B.form) (work_state S.state self.old) cell g
            → IfOk result (λ o. IfSome o (λ i. IsAt self.new.arena i (can g))) }
        ensures begins { Begins self.old.arena self.new.arena }
        ensures spends { Spends 0 (work_state S.state self.old) (work_state S.state self.new) }
    {
        match self.store.noted(cell) {
            None => Ok(None),
            Some(value) => {
                let game = self.game(alloc, Handle::of(value))?;
                Ok(Some(game))
            }
        }
    }

    /// Notes the form on the cell.
    pub fn note_sum(&mut self, cell: Id, sum: Game)
        requires { (g : tree.Game) × IsNoteOf (game_meaning B.form) (work_state S.state self.old) cell g × IsAt self.old.arena sum (can g) }
        ensures spends { Spends 0 (work_state S.state self.old) (work_state S.state self.new) }
        ensures arena { self.new.arena ≡ self.old.arena }
    {
        let value = self.handle(sum).id();
        self.store.note(cell, value);
    }
}

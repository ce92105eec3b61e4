// A table with one pass of it, as a store of cells.
ghost use base.Fml.{ftrue};
ghost use Rattle.std.specs.Prelude.{◌≡◌, ℕ, [], ◌∷◌, Some, IfSome, IfNone};
ghost use Rattle.cg_cells.specs.Layout.{id_field};
ghost use Rattle.cg_cells.specs.Meaning.{Has, note_for};
ghost use Rattle.cg_cells.specs.Store.{Spends, Known, thing_at};
ghost use Rattle.cg_cells.specs.Views.{a_read, knows, makes, after_read};
ghost use Rattle.cg_shared.specs.Passes.{PassOf, pass_code, RestOf, rest_code, IsPassOf};
ghost use Rattle.cg_shared.specs.Passes.{pass_state};

use crate::pass::Pass;
use crate::table::SharedCells;
use cg_cells::{CellStore, Facts, Id, Key};
use std::marker::Model;

/// What no call on a desk's cells changes: its table, and its pass's tickets, heirs and meets. In contracts only.
pub struct DeskRest {
    ghost is: { RestOf } by { rest_code },
}

impl Model for DeskRest {
    ghost Value = { RestOf };

    ghost coded = { rest_code };

    ghost view = { λ r. r.is };

    ghost also_owns = { λ _. ftrue };
}

/// A table and a pass of it. Contracts see the pass.
#[derive(Drop)]
pub struct Desk<'a, F: Facts> {
    cells: &'a SharedCells<F>,
    pass: Pass<F>,
}

impl<'a, F: Facts> Model for Desk<'a, F> {
    ghost Value = { PassOf F.Thing };

    ghost coded = { pass_code F.Thing.code };

    ghost view = { λ d. d.pass };

    ghost invariant = { λ d. IsPassOf d.cells.now d.pass };
}

impl<'a, F: Facts> Desk<'a, F> {
    /// The table with this pass of it.
    pub fn new(cells: &'a SharedCells<F>, pass: Pass<F>) -> Desk<'a, F>
        requires { IsPassOf cells.now pass }
        ensures { result ≡ pass }
    {
        Desk { cells, pass }
    }

    /// The pass, at the end.
    pub fn into_pass(self) -> Pass<F>
        ensures { result ≡ self.entry }
    {
        let Desk { cells: _, pass } = self;
        pass
    }
}

impl<'a, F: Facts> CellStore<F> for Desk<'a, F> {
    type Rest = DeskRest;

    ghost state = { pass_state };

    fn look(&mut self, id: Id) -> Key {
        self.cells.look(&mut self.pass, id)
    }

    fn claim(&mut self, key: Key) -> Id {
        self.cells.claim(&mut self.pass, key)
    }

    fn note(&mut self, id: Id, value: Id) {
        self.cells.note(&mut self.pass, id, value);
    }

    /// None only if this call read an empty word; the id is then one more of the pass's empties.
    fn noted(&mut self, id: Id) -> Option<Id>
        requires { Known (pass_state self.old) id }
        ensures value { IfSome result (λ value. Known (pass_state self.new) value
            × (thing_at (pass_state self.new) value
            ≡ note_for F.meaning (thing_at (pass_state self.old) id))) }
        ensures some { IfSome result (λ value. Has (pass_state self.new).noted id) }
        ensures none { IfNone result (¬ Has (pass_state self.old).noted id) }
        ensures view { (t : F.Thing) → knows self.old.sees id ≡ Some t
            → self.new.sees ≡ after_read F.meaning (makes (a_read id ∷ []) self.old.sees) id
            (id_field result) t }
        ensures empty { IfNone result
            (self.new.sees ≡ record self.old.sees {
              empties = id ∷ self.old.sees.empties;
              made = a_read id ∷ self.old.sees.made;
            }) }
        ensures spends { Spends 0 (pass_state self.old) (pass_state self.new) }
    {
        self.cells.noted(&mut self.pass, id)
    }

    fn prefetch_claim(&mut self, key: Key) -> Id {
        self.cells.prefetch_claim(&mut self.pass, key)
    }

    fn prefetch_note(&mut self, id: Id) {
        self.cells.prefetch_note(&mut self.pass, id);
    }

    fn spare(&self) -> u64 {
        self.pass.spare()
    }

    fn same(&self, a: Id, b: Id) -> bool {
        self.pass.same(a, b)
    }

    fn apart(&self) {
        self.pass.apart();
    }
}

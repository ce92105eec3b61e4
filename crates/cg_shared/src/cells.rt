ghost use Rattle.std.specs.Prelude.{◌≡◌, ℕ, suc, ◌≤◌, [], ◌∷◌, Some, IfSome, IfNone, IsSome};
ghost use Rattle.cg_cells.specs.Layout.{id_field};
ghost use Rattle.cg_cells.specs.Parts.{names_of};
ghost use Rattle.cg_cells.specs.Meaning.{Has, note_for};
ghost use Rattle.cg_cells.specs.Store.{Spends, Known, thing_at};
ghost use Rattle.cg_cells.specs.Views.{a_look, a_read, a_note, knows, cells_of, makes};
ghost use Rattle.cg_cells.specs.Views.{after_look, after_read, after_claim, after_note};
ghost use Rattle.cg_shared.specs.Passes.{IsPassOf, pass_state};
ghost use Rattle.cg_shared.specs.Searches.{AreTurns};

use crate::pass::Pass;
use crate::table::SharedCells;
use crate::{search, steps};
use cg_cells::{Facts, Id, Key};

impl<F: Facts> SharedCells<F> {
    pub(crate) fn size(&self) -> u64
        ensures { result ≡ cells_of self.now.sizes }
    {
        self.size.number()
    }

    /// As in [`CellStore`](cg_cells::CellStore): one load.
    pub fn look(&self, pass: &mut Pass<F>, id: Id) -> Key
        requires own { IsPassOf self.now pass.old }
        requires known { Known (pass_state pass.old) id }
        ensures own { IsPassOf self.now pass.new }
        ensures view { (t : F.Thing) → knows pass.old.sees id ≡ Some t
            → pass.new.sees ≡ after_look F.meaning (makes (a_look id ∷ []) pass.old.sees) result t }
        ensures spells { F.meaning.spells result (thing_at (pass_state pass.new))
            ≡ thing_at (pass_state pass.old) id }
        ensures named { (i : ℕ) → Has (names_of result) i → Known (pass_state pass.new) i }
        ensures spends { Spends 0 (pass_state pass.old) (pass_state pass.new) }
    {
        let word = steps::look::<F>(&self.table.shared, &mut pass.seat, id.number() as usize);
        let Some(key) = Key::from_word(word) else {
            unreachable!()
        };
        key
    }

    /// As in [`CellStore`](cg_cells::CellStore). If an id is known already to be what the key spells, as after an
    /// earlier claim, it is this id. Each turn of the search is one load, and one exchange more if the load read an
    /// empty word.
    pub fn claim(&self, pass: &mut Pass<F>, key: Key) -> Id
        requires own { IsPassOf self.now pass.old }
        requires spare { 1 ≤ pass.old.sees.spare }
        requires spells { IsSome (F.meaning.spells key (thing_at (pass_state pass.old))) }
        ensures own { IsPassOf self.now pass.new }
        ensures view { (t : F.Thing) → F.meaning.spells key (knows pass.old.sees) ≡ Some t
            → pass.new.sees
            ≡ after_claim (record pass.old.sees { made = pass.new.sees.made }) result t }
        ensures made { (n : ℕ) × AreTurns key (suc n) pass.old.sees.made pass.new.sees.made }
        ensures stands { thing_at (pass_state pass.new) result
            ≡ F.meaning.spells key (thing_at (pass_state pass.old)) }
        ensures again { (known : ℕ)
            → thing_at (pass_state pass.old) known
            ≡ F.meaning.spells key (thing_at (pass_state pass.old)) → result ≡ known }
        ensures spends { Spends 1 (pass_state pass.old) (pass_state pass.new) }
    {
        let shared = &self.table.shared;
        let key = key.word();
        let home = F::home_in(key, &self.size);
        let cell = search::claim::<F>(shared, &mut pass.seat, key, home, self.size());
        pass.spare -= 1;
        Id::new(cell as u32)
    }

    /// As in [`CellStore`](cg_cells::CellStore): one exchange.
    pub fn note(&self, pass: &mut Pass<F>, id: Id, value: Id)
        requires own { IsPassOf self.now pass.old }
        requires id { Known (pass_state pass.old) id }
        requires value { Known (pass_state pass.old) value }
        requires due { thing_at (pass_state pass.old) value
            ≡ note_for F.meaning (thing_at (pass_state pass.old) id) }
        ensures own { IsPassOf self.now pass.new }
        ensures view { pass.new.sees ≡ after_note (makes (a_note id value ∷ []) pass.old.sees) id }
        ensures noted { Has (pass_state pass.new).noted id }
        ensures spends { Spends 0 (pass_state pass.old) (pass_state pass.new) }
    {
        let size = self.size() as usize;
        steps::note::<F>(
            &self.table.shared,
            &mut pass.seat,
            size,
            id.number() as usize,
            value.number() as u64,
        );
    }

    /// As in [`CellStore`](cg_cells::CellStore): one load. None only if this load read an empty word; the id is then
    /// one more of the pass's empties. With a value the pass has noted the id, and knows the value as the thing of this
    /// note.
    pub fn noted(&self, pass: &mut Pass<F>, id: Id) -> Option<Id>
        requires own { IsPassOf self.now pass.old }
        requires known { Known (pass_state pass.old) id }
        ensures own { IsPassOf self.now pass.new }
        ensures value { IfSome result (λ value. Known (pass_state pass.new) value
            × (thing_at (pass_state pass.new) value
            ≡ note_for F.meaning (thing_at (pass_state pass.old) id))) }
        ensures some { IfSome result (λ value. Has (pass_state pass.new).noted id) }
        ensures none { IfNone result (¬ Has (pass_state pass.old).noted id) }
        ensures view { (t : F.Thing) → knows pass.old.sees id ≡ Some t
            → pass.new.sees ≡ after_read F.meaning (makes (a_read id ∷ []) pass.old.sees) id
            (id_field result) t }
        ensures empty { IfNone result
            (pass.new.sees ≡ record pass.old.sees {
              empties = id ∷ pass.old.sees.empties;
              made = a_read id ∷ pass.old.sees.made;
            }) }
        ensures spends { Spends 0 (pass_state pass.old) (pass_state pass.new) }
    {
        let size = self.size() as usize;
        let word = steps::read::<F>(
            &self.table.shared,
            &mut pass.seat,
            size,
            id.number() as usize,
        );
        if word == 0 {
            return None;
        }
        Some(Id::new((word - 1) as u32))
    }

    /// Loads the word of the cell where the search for this key begins, so that it is in the cache when the key is
    /// claimed, and answers the id of that cell.
    pub fn prefetch_claim(&self, pass: &mut Pass<F>, key: Key) -> Id
        requires own { IsPassOf self.now pass.old }
        ensures own { IsPassOf self.now pass.new }
        ensures view { pass.new.sees ≡ pass.old.sees }
        ensures spends { Spends 0 (pass_state pass.old) (pass_state pass.new) }
    {
        let shared = &self.table.shared;
        let home = F::home_in(key.word(), &self.size);
        steps::check::<F>(shared, &mut pass.seat, 1 + home as usize);
        Id::new(home as u32)
    }

    /// Loads the value word of this id, if it is one of the table's, so that it is in the cache when it is asked for.
    pub fn prefetch_note(&self, pass: &mut Pass<F>, id: Id)
        requires own { IsPassOf self.now pass.old }
        ensures own { IsPassOf self.now pass.new }
        ensures view { pass.new.sees ≡ pass.old.sees }
        ensures spends { Spends 0 (pass_state pass.old) (pass_state pass.new) }
    {
        let size = self.size() as usize;
        let cell = id.number() as usize;
        if cell < size {
            steps::check::<F>(&self.table.shared, &mut pass.seat, 1 + size + cell);
        }
    }
}

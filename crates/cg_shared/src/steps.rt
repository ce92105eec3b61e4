// Each step on a table's words, by a seat.
ghost use Rattle.std.specs.Prelude.{◌≡◌, ◌≢◌, ◌⊎◌, ℕ, suc, ◌+◌, ◌^◌, ◌<◌, ◌≤◌, false, [], ◌∷◌};
ghost use Rattle.std.specs.Prelude.{None, Some, IsSome};
ghost use Rattle.cg_cells.specs.Meaning.{Has, note_for};
ghost use Rattle.cg_cells.specs.Parts.{names_of};
ghost use Rattle.cg_cells.specs.Store.{Spends};
ghost use Rattle.cg_cells.specs.Views.{a_split, a_join, a_draw, a_look, a_read, a_probe};
ghost use Rattle.cg_cells.specs.Views.{a_claim, a_note, knows, cells_of, makes, after_draw};
ghost use Rattle.cg_cells.specs.Views.{after_look, after_read, after_note, after_split, split_off};
ghost use Rattle.cg_cells.specs.Views.{after_meet};
ghost use Rattle.cg_cells.specs.Sure.{Sure};
ghost use Rattle.cg_shared.specs.Passes.{IsStill, state_by};
ghost use Rattle.cg_shared.specs.Plays.{sizes_of};
ghost use Rattle.cg_shared.specs.Searches.{IsAt, EndsAt, GoesPast};

use crate::plays::{
    Checks, Claims, Cuts, Draws, Heirs, Looks, Meets, Notes, Probes, Reads, Rule, Sought,
};
use crate::view::{Plan, View};
use atomic_table::{Seat, Shared};
use cg_cells::Facts;

pub(crate) fn draw<F: Facts>(
    shared: &Shared<(), View<F::Thing>, Plan, Rule<F>>,
    seat: &mut Seat<(), View<F::Thing>>,
) -> u64
    requires table { (seat.old.table_id ≡ shared.now.table_id) × (0 < shared.now.table_id.words) }
    requires live { seat.old.me.0.gone ≡ false }
    requires more { seat.old.me.0.over ≡ false }
    ensures same { (seat.new.table_id ≡ seat.old.table_id) × (seat.new.me.1 ≡ seat.old.me.1) }
    ensures view { seat.new.me.0 ≡ after_draw (makes (a_draw ∷ []) seat.old.me.0) result }
    ensures sure { Sure F.meaning seat.new.me.0 }
{
    shared.fetch_add::<Draws<F>>(seat, 0, 1)
}

pub(crate) fn look<F: Facts>(
    shared: &Shared<(), View<F::Thing>, Plan, Rule<F>>,
    seat: &mut Seat<(), View<F::Thing>>,
    cell: usize,
) -> u64
    requires table { (seat.old.table_id ≡ shared.now.table_id)
        × (1 + cell < shared.now.table_id.words) }
    requires small { cell < 2 ^ 26 }
    requires live { seat.old.me.0.gone ≡ false }
    requires known { IsSome (knows seat.old.me.0 cell) }
    ensures same { (seat.new.table_id ≡ seat.old.table_id) × (seat.new.me.1 ≡ seat.old.me.1) }
    ensures view { (t : F.Thing) → knows seat.old.me.0 cell ≡ Some t
        → seat.new.me.0 ≡ after_look F.meaning (makes (a_look cell ∷ []) seat.old.me.0) result t }
    ensures still { IsStill seat.old.me.0 seat.new.me.0 }
    ensures sure { Sure F.meaning seat.new.me.0 }
    ensures key { result ≢ 0 }
    ensures spells { F.meaning.spells result (knows seat.new.me.0) ≡ knows seat.old.me.0 cell }
    ensures named { (i : ℕ) → Has (names_of result) i → IsSome (knows seat.new.me.0 i) }
    ensures spends { Spends 0 (state_by seat.old.table_id seat.old.me.0)
        (state_by seat.new.table_id seat.new.me.0) }
{
    shared.load::<Looks<F>>(seat, 1 + cell)
}

pub(crate) fn read<F: Facts>(
    shared: &Shared<(), View<F::Thing>, Plan, Rule<F>>,
    seat: &mut Seat<(), View<F::Thing>>,
    size: usize,
    cell: usize,
) -> u64
    requires table { (seat.old.table_id ≡ shared.now.table_id)
        × (1 + size + cell < shared.now.table_id.words) }
    requires small { (size ≤ 2 ^ 26) × (cell < 2 ^ 26) }
    requires sized { (size ≡ cells_of (sizes_of shared.now.key))
        × (seat.old.me.0.sizes ≡ sizes_of shared.now.key) }
    requires live { seat.old.me.0.gone ≡ false }
    requires known { IsSome (knows seat.old.me.0 cell) }
    ensures same { (seat.new.table_id ≡ seat.old.table_id) × (seat.new.me.1 ≡ seat.old.me.1) }
    ensures view { (t : F.Thing) → knows seat.old.me.0 cell ≡ Some t
        → seat.new.me.0 ≡ after_read F.meaning (makes (a_read cell ∷ []) seat.old.me.0) cell result t }
    ensures still { IsStill seat.old.me.0 seat.new.me.0 }
    ensures sure { Sure F.meaning seat.new.me.0 }
    ensures value { (value : ℕ) → result ≡ suc value → (value < size)
        × IsSome (knows seat.new.me.0 value)
        × (knows seat.new.me.0 value ≡ note_for F.meaning (knows seat.old.me.0 cell))
        × Has seat.new.me.0.noted cell }
    ensures empty { result ≡ 0
        → seat.new.me.0 ≡ record seat.old.me.0 {
          empties = cell ∷ seat.old.me.0.empties;
          made = a_read cell ∷ seat.old.me.0.made;
        } }
    ensures none { result ≡ 0 → ¬ Has seat.old.me.0.noted cell }
    ensures spends { Spends 0 (state_by seat.old.table_id seat.old.me.0)
        (state_by seat.new.table_id seat.new.me.0) }
{
    shared.load::<Reads<F>>(seat, 1 + size + cell)
}

pub(crate) fn probe<F: Facts, K: Sought>(
    shared: &Shared<(), View<F::Thing>, Plan, Rule<F>>,
    seat: &mut Seat<(), View<F::Thing>>,
    key: u64,
    steps: u64,
    cell: usize,
) -> u64
    requires table { seat.old.table_id ≡ shared.now.table_id }
    requires at { IsAt F.meaning
        (sizes_of shared.now.key) shared.now.table_id.words seat.old.me.0 key steps cell }
    requires sought { key ≡ K.key }
    ensures same { (seat.new.table_id ≡ seat.old.table_id) × (seat.new.me.1 ≡ seat.old.me.1) }
    ensures made { seat.new.me.0.made ≡ a_probe key ∷ seat.old.me.0.made }
    ensures empty { result ≡ 0 → seat.new.me.0 ≡ makes (a_probe key ∷ []) seat.old.me.0 }
    ensures hit { result ≡ key → EndsAt F.meaning seat.old.me.0 key cell seat.new.me.0 }
    ensures miss { result ≢ 0 → result ≢ key → GoesPast seat.old.me.0 key seat.new.me.0 }
{
    shared.load::<Probes<F, K>>(seat, 1 + cell)
}

pub(crate) fn claim<F: Facts>(
    shared: &Shared<(), View<F::Thing>, Plan, Rule<F>>,
    seat: &mut Seat<(), View<F::Thing>>,
    key: u64,
    steps: u64,
    cell: usize,
) -> u64
    requires table { seat.old.table_id ≡ shared.now.table_id }
    requires at { IsAt F.meaning
        (sizes_of shared.now.key) shared.now.table_id.words seat.old.me.0 key steps cell }
    ensures same { (seat.new.table_id ≡ seat.old.table_id) × (seat.new.me.1 ≡ seat.old.me.1) }
    ensures made { seat.new.me.0.made ≡ a_claim key ∷ seat.old.me.0.made }
    ensures hit { (result ≡ 0) ⊎ (result ≡ key)
        → EndsAt F.meaning seat.old.me.0 key cell seat.new.me.0 }
    ensures miss { result ≢ 0 → result ≢ key → GoesPast seat.old.me.0 key seat.new.me.0 }
{
    shared.compare_exchange::<Claims<F>>(seat, 1 + cell, 0, key)
}

pub(crate) fn note<F: Facts>(
    shared: &Shared<(), View<F::Thing>, Plan, Rule<F>>,
    seat: &mut Seat<(), View<F::Thing>>,
    size: usize,
    cell: usize,
    value: u64,
)
    requires table { (seat.old.table_id ≡ shared.now.table_id)
        × (1 + size + cell < shared.now.table_id.words) }
    requires small { (size ≤ 2 ^ 26) × (cell < 2 ^ 26) × (value < 2 ^ 26) }
    requires sized { (size ≡ cells_of (sizes_of shared.now.key))
        × (seat.old.me.0.sizes ≡ sizes_of shared.now.key) }
    requires live { seat.old.me.0.gone ≡ false }
    requires known { IsSome (knows seat.old.me.0 value) }
    requires due { (t : F.Thing) × (knows seat.old.me.0 cell ≡ Some t)
        × (F.meaning.note_of t ≡ knows seat.old.me.0 value) }
    ensures same { (seat.new.table_id ≡ seat.old.table_id) × (seat.new.me.1 ≡ seat.old.me.1) }
    ensures view { seat.new.me.0 ≡ after_note (makes (a_note cell value ∷ []) seat.old.me.0) cell }
    ensures sure { Sure F.meaning seat.new.me.0 }
{
    shared.compare_exchange::<Notes<F>>(seat, 1 + size + cell, 0, value + 1);
}

pub(crate) fn split<F: Facts, H: Heirs>(
    shared: &Shared<(), View<F::Thing>, Plan, Rule<F>>,
    seat: &mut Seat<(), View<F::Thing>>,
) -> Seat<(), View<F::Thing>>
    requires table { (seat.old.table_id ≡ shared.now.table_id) × (0 < shared.now.table_id.words) }
    requires live { seat.old.me.0.gone ≡ false }
    requires heirs { H.heirs < seat.old.me.0.heirs }
    requires sure { Sure F.meaning seat.old.me.0 }
    ensures sure { Sure F.meaning seat.new.me.0 × Sure F.meaning result.me.0 }
    ensures old { (seat.new.table_id ≡ seat.old.table_id)
        × (seat.new.me ≡ (after_split H.heirs (makes (a_split H.heirs ∷ []) seat.old.me.0), seat.old.me.1)) }
    ensures new { (result.table_id ≡ seat.old.table_id)
        × (result.me ≡ (split_off H.heirs seat.old.me.0, [])) }
{
    shared.split_seat::<Cuts<H>>(seat)
}

// A load that tells only what the rule says of the view.
pub(crate) fn check<F: Facts>(
    shared: &Shared<(), View<F::Thing>, Plan, Rule<F>>,
    seat: &mut Seat<(), View<F::Thing>>,
    word: usize,
)
    requires table { (seat.old.table_id ≡ shared.now.table_id)
        × (word < shared.now.table_id.words) }
    requires live { seat.old.me.0.gone ≡ false }
    ensures same { (seat.new.table_id ≡ seat.old.table_id) × (seat.new.me.1 ≡ seat.old.me.1) }
    ensures view { seat.new.me.0 ≡ seat.old.me.0 }
    ensures sure { Sure F.meaning seat.new.me.0 }
{
    shared.load::<Checks<F>>(seat, word);
}

pub(crate) fn meet<F: Facts>(
    shared: &Shared<(), View<F::Thing>, Plan, Rule<F>>,
    seat: &mut Seat<(), View<F::Thing>>,
    other: Seat<(), View<F::Thing>>,
)
    requires table { (seat.old.table_id ≡ shared.now.table_id)
        × (other.table_id ≡ shared.now.table_id) × (0 < shared.now.table_id.words) }
    requires live { (seat.old.me.0.gone ≡ false) × (other.me.0.gone ≡ false) }
    requires free { other.me.1 ≡ [] }
    requires search { (seat.old.me.0.probe ≡ None) × (other.me.0.probe ≡ None) }
    ensures same { (seat.new.table_id ≡ seat.old.table_id) × (seat.new.me.1 ≡ seat.old.me.1) }
    ensures view { seat.new.me.0 ≡ after_meet (makes (a_join ∷ []) seat.old.me.0) other.me.0 }
    ensures sure { Sure F.meaning seat.new.me.0 }
{
    shared.join_seat::<Meets>(seat, other);
    check::<F>(shared, seat, 0);
}

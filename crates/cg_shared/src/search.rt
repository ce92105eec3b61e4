// The search for a key.
ghost use Rattle.std.specs.Prelude.{◌≡◌, ℕ, suc, ◌+◌, ◌-◌, ◌^◌, ◌<◌, ◌≤◌, ◌∷◌, false, IsTrue};
ghost use Rattle.std.specs.Prelude.{IfSome, IfNone, MatchOption};
ghost use Rattle.cg_cells.specs.Index.{place};
ghost use Rattle.cg_cells.specs.Store.{Spends};
ghost use Rattle.cg_cells.specs.Views.{a_claim, knows, cells_of};
ghost use Rattle.cg_cells.specs.Steps.{GoesOn, IsSearching};
ghost use Rattle.cg_cells.specs.Sure.{Sure};
ghost use Rattle.cg_shared.specs.Passes.{state_by};
ghost use Rattle.cg_shared.specs.Plays.{sizes_of};
ghost use Rattle.cg_shared.specs.Searches.{IsAt, EndsAt, GoesPast, IsTurn, AreTurns};

use crate::plays::Rule;
use crate::steps;
use crate::view::{Plan, View};
use atomic_table::{Seat, Shared};
use cg_cells::Facts;
use std::marker::Brand;

// Claims an empty cell. Whether the search ends here: not if another key came first.
fn takes<F: Facts>(
    shared: &Shared<(), View<F::Thing>, Plan, Rule<F>>,
    seat: &mut Seat<(), View<F::Thing>>,
    key: u64,
    steps: u64,
    cell: usize,
) -> bool
    requires table { seat.old.table_id ≡ shared.now.table_id }
    requires at { IsAt F.meaning
        (sizes_of shared.now.key) shared.now.table_id.words seat.old.me.0 key steps cell }
    ensures same { (seat.new.table_id ≡ seat.old.table_id) × (seat.new.me.1 ≡ seat.old.me.1) }
    ensures made { seat.new.me.0.made ≡ a_claim key ∷ seat.old.me.0.made }
    ensures hit { IsTrue result → EndsAt F.meaning seat.old.me.0 key cell seat.new.me.0 }
    ensures miss { result ≡ false → GoesPast seat.old.me.0 key seat.new.me.0 }
{
    let found = steps::claim::<F>(shared, seat, key, steps, cell);
    found == 0 || found == key
}

// One turn of the search: a probe, and a claim if the cell is empty. Whether the search ends here.
fn ends<F: Facts>(
    shared: &Shared<(), View<F::Thing>, Plan, Rule<F>>,
    seat: &mut Seat<(), View<F::Thing>>,
    key: u64,
    steps: u64,
    cell: usize,
) -> bool
    requires table { seat.old.table_id ≡ shared.now.table_id }
    requires at { IsAt F.meaning
        (sizes_of shared.now.key) shared.now.table_id.words seat.old.me.0 key steps cell }
    ensures same { (seat.new.table_id ≡ seat.old.table_id) × (seat.new.me.1 ≡ seat.old.me.1) }
    ensures made { IsTurn key seat.old.me.0.made seat.new.me.0.made }
    ensures hit { IsTrue result → EndsAt F.meaning seat.old.me.0 key cell seat.new.me.0 }
    ensures miss { result ≡ false → GoesPast seat.old.me.0 key seat.new.me.0 }
{
    let found = steps::probe::<F, Brand>(shared, seat, key, steps, cell);
    if found == 0 {
        return takes::<F>(shared, seat, key, steps, cell);
    }
    found == key
}

// Searches the cells from `first` to `end`, where `first` comes `steps` cells after the key's home. It ends at the
// key's cell, or at an empty one, which it claims; None if all of them have other keys. The loop doesn't wrap around,
// so a turn costs little more than its load.
fn claim_among<F: Facts>(
    shared: &Shared<(), View<F::Thing>, Plan, Rule<F>>,
    seat: &mut Seat<(), View<F::Thing>>,
    key: u64,
    steps: u64,
    first: u64,
    end: u64,
) -> Option<u64>
    requires table { (seat.old.table_id ≡ shared.now.table_id)
        × (1 + end ≤ shared.now.table_id.words) }
    requires sized { seat.old.me.0.sizes ≡ sizes_of shared.now.key }
    requires small { (steps ≤ 2 ^ 26) × (first ≤ end) × (end ≤ 2 ^ 26) }
    requires live { seat.old.me.0.gone ≡ false }
    requires search { IsSearching F.meaning seat.old.me.0 key steps }
    requires left { steps < cells_of (sizes_of shared.now.key) }
    requires straight { let size = cells_of (sizes_of shared.now.key) in
        (k : ℕ) → first + k < end → first + k ≡ place size (F.meaning.home key size) (steps + k) }
    ensures same { (seat.new.table_id ≡ seat.old.table_id) × (seat.new.me.1 ≡ seat.old.me.1) }
    ensures hit { IfSome result (λ cell. EndsAt F.meaning seat.old.me.0 key cell seat.new.me.0) }
    ensures inside { IfSome result (λ cell. cell < end) }
    ensures still { IfNone result
        (seat.new.me.0 ≡ record seat.old.me.0 {
          probe = seat.new.me.0.probe;
          made = seat.new.me.0.made;
        }) }
    ensures made { MatchOption result
        ((n : ℕ) × AreTurns key n seat.old.me.0.made seat.new.me.0.made)
        (λ cell. (n : ℕ) × AreTurns key (suc n) seat.old.me.0.made seat.new.me.0.made) }
    ensures goes { IfNone result (GoesOn seat.new.me.0.probe key (steps + (end - first))) }
    ensures left { IfNone result (steps + (end - first) < cells_of (sizes_of shared.now.key)) }
{
    let mut cell = first;
    while cell < end {
        if ends::<F>(shared, seat, key, steps + (cell - first), cell as usize) {
            return Some(cell);
        }
        cell += 1;
    }
    None
}

// The search from the key's home to the last cell, and then from the first cell to the home.
fn search<F: Facts>(
    shared: &Shared<(), View<F::Thing>, Plan, Rule<F>>,
    seat: &mut Seat<(), View<F::Thing>>,
    key: u64,
    home: u64,
    size: u64,
) -> u64
    requires table { seat.old.table_id ≡ shared.now.table_id }
    requires words { shared.now.table_id.words ≡ 1 + size + size }
    requires sized { seat.old.me.0.sizes ≡ sizes_of shared.now.key }
    requires size { (size ≡ cells_of (sizes_of shared.now.key)) × (size ≤ 2 ^ 26) }
    requires home { (home ≡ F.meaning.home key size) × (home < size) }
    requires live { seat.old.me.0.gone ≡ false }
    requires search { IsSearching F.meaning seat.old.me.0 key 0 }
    ensures same { (seat.new.table_id ≡ seat.old.table_id) × (seat.new.me.1 ≡ seat.old.me.1) }
    ensures hit { EndsAt F.meaning seat.old.me.0 key result seat.new.me.0 }
    ensures inside { result < size }
    ensures made { (n : ℕ) × AreTurns key (suc n) seat.old.me.0.made seat.new.me.0.made }
{
    if let Some(cell) = claim_among::<F>(shared, seat, key, 0, home, size) {
        return cell;
    }
    match claim_among::<F>(shared, seat, key, size - home, 0, home) {
        Some(cell) => cell,
        None => unreachable!(),
    }
}

/// Searches for the key from its home on, and claims the first empty cell if no cell has the key. Each cell has one
/// turn at most.
pub(crate) fn claim<F: Facts>(
    shared: &Shared<(), View<F::Thing>, Plan, Rule<F>>,
    seat: &mut Seat<(), View<F::Thing>>,
    key: u64,
    home: u64,
    size: u64,
) -> u64
    requires table { seat.old.table_id ≡ shared.now.table_id }
    requires words { shared.now.table_id.words ≡ 1 + size + size }
    requires sized { seat.old.me.0.sizes ≡ sizes_of shared.now.key }
    requires size { (size ≡ cells_of (sizes_of shared.now.key)) × (size ≤ 2 ^ 26) }
    requires home { (home ≡ F.meaning.home key size) × (home < size) }
    requires live { seat.old.me.0.gone ≡ false }
    requires search { IsSearching F.meaning seat.old.me.0 key 0 }
    ensures same { (seat.new.table_id ≡ seat.old.table_id) × (seat.new.me.1 ≡ seat.old.me.1) }
    ensures hit { EndsAt F.meaning seat.old.me.0 key result seat.new.me.0 }
    ensures sure { Sure F.meaning seat.new.me.0 }
    ensures stands { knows seat.new.me.0 result ≡ F.meaning.spells key (knows seat.old.me.0) }
    ensures again { (id : ℕ) → knows seat.old.me.0 id ≡ F.meaning.spells key (knows seat.old.me.0)
        → result ≡ id }
    ensures spends { Spends 1 (state_by seat.old.table_id seat.old.me.0)
        (state_by seat.new.table_id seat.new.me.0) }
    ensures inside { result < size }
    ensures made { (n : ℕ) × AreTurns key (suc n) seat.old.me.0.made seat.new.me.0.made }
{
    search::<F>(shared, seat, key, home, size)
}

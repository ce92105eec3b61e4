//! Laws of a shared table: its rule holds whatever its passes do, in whatever order; and what the rule says of tickets.
//! Each pass keeps the list of the steps that it makes.
ghost use Rattle.std.specs.Prelude.{◌≡◌, ℕ, ◌<◌, ◌≤◌, min, List, [], slice_index};
ghost use Rattle.cg_cells.specs.Views.{Sizes, ViewOf, cells_of};
ghost use Rattle.cg_cells.specs.Table.{IsAllowed, IsLive, SoundAndPlaced, Whole, times};
ghost use Rattle.cg_cells.specs.Steps.{Table, Step, close, opening, Leads, Run, IsOpen, made_by};

use crate::Facts;

/// For every list of steps from the start of a table of any allowed size, each made under its condition: the rule holds
/// after it, if no step closed the table. After a close the words are sound, each key stands at its home or behind it
/// with no empty cell between, no pass is live, and no further step can be made.
pub fn steps<F: Facts>()
    ensures whole { (z : Sizes) → IsAllowed z → (steps : List Step) (t : Table F.Thing)
        → IsOpen steps
        → Run F.meaning z (opening z) steps t → Whole F.meaning z t.words t.views }
    ensures closed { (z : Sizes) → IsAllowed z → (steps : List Step) (j : ℕ) (s t : Table F.Thing)
        → IsOpen steps
        → Run F.meaning z (opening z) steps s → Leads F.meaning z s (close j) t
        → SoundAndPlaced F.meaning (cells_of z) t.words
        × ((i : ℕ) (v : ViewOf F.Thing) → ¬ IsLive t.views i v) }
    ensures last { (z : Sizes) (s t : Table F.Thing) (step : Step)
        → ((i : ℕ) (v : ViewOf F.Thing) → ¬ IsLive s.views i v) → ¬ Leads F.meaning z s step t }
{}

/// After every list of steps from the start of a table, the steps that a live pass's view lists are the steps of that
/// list that this pass made, and those of the passes that were met into it, the latest first.
pub fn made<F: Facts>()
    ensures { (z : Sizes) (steps : List Step) (t : Table F.Thing) (i : ℕ) (v : ViewOf F.Thing)
        → Run F.meaning z (opening z) steps t → IsLive t.views i v
        → v.made ≡ made_by steps (λ j. []) i }
{}

/// If the rule holds, each line that was drawn is the ticket of one live pass, which has it once, and of no other. No
/// pass has any other ticket.
pub fn tickets<F: Facts>()
    ensures one { (z : Sizes) (words : List ℕ) (views : List (ViewOf F.Thing)) (i j n : ℕ)
        (v w : ViewOf F.Thing)
        → Whole F.meaning z words views → IsLive views i v → IsLive views j w
        → 1 ≤ times n v.tickets → 1 ≤ times n w.tickets → i ≡ j }
    ensures once { (z : Sizes) (words : List ℕ) (views : List (ViewOf F.Thing)) (i n : ℕ)
        (v : ViewOf F.Thing)
        → Whole F.meaning z words views → IsLive views i v → times n v.tickets ≤ 1 }
    ensures drawn { (z : Sizes) (words : List ℕ) (views : List (ViewOf F.Thing)) (i n : ℕ)
        (v : ViewOf F.Thing)
        → Whole F.meaning z words views → IsLive views i v → 1 ≤ times n v.tickets
        → n < min (slice_index words 0) z.lines }
    ensures held { (z : Sizes) (words : List ℕ) (views : List (ViewOf F.Thing)) (n : ℕ)
        → Whole F.meaning z words views → n < min (slice_index words 0) z.lines
        → (i : ℕ) × (v : ViewOf F.Thing) × IsLive views i v × (times n v.tickets ≡ 1) }
{}

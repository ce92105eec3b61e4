//! Sums of pairs of games of the arena, in either order, over the lines of a worker.
ghost use Rattle.std.specs.Prelude.{◌≡◌, ◌⊎◌, ◌++◌, ◌∷◌, [], IfSome};
ghost use Rattle.cg_form.specs.Sum.{sum as sum_of};
ghost use Rattle.cg_nodes.specs.Can.{can};
ghost use Rattle.cg_arena.specs.Arena.{IsIndex, game_of};
ghost use Rattle.cg_canon.specs.Arena.{IsAt};
ghost use Rattle.cg_canon.specs.KeptSums.{IsKeptSum, kept_of};

use crate::lossy_index::{LossyIndex, half_of, mixed};
use crate::work::Work;
use cg_arena::Game;
use cg_cells::CellStore;
use cg_nodes::{BoardForms, GameFacts};
use std::alloc::Global;

/// The form of the sum of two games, the one at the lesser place first.
#[derive(Clone, Copy)]
pub(crate) struct KeptSum {
    low: Game,
    high: Game,
    sum: Game,
}

/// Sums, and where that of a pair is looked for.
#[derive(Drop)]
pub(crate) struct KeptSums {
    sums: Vec<KeptSum>,
    places: LossyIndex,
}

/// A number for the pair. Neither place is mixed into the other, since those of a running sum lie close together.
fn number_of_pair(low: Game, high: Game) -> u32 {
    half_of(mixed(mixed(1, low.place() as u64), high.place() as u64))
}

/// The two, the one at the lesser place first.
#[inline(always)]
fn in_order(a: Game, b: Game) -> (Game, Game)
    ensures { ((result.0 ≡ a) × (result.1 ≡ b)) ⊎ ((result.0 ≡ b) × (result.1 ≡ a)) }
{
    if a.place() <= b.place() {
        (a, b)
    } else {
        (b, a)
    }
}

impl KeptSums {
    /// No sums.
    pub fn new(alloc: Global) -> KeptSums
        ensures { result.sums.items ≡ [] }
    {
        KeptSums {
            sums: Vec::new(alloc),
            places: LossyIndex::new(alloc),
        }
    }

    /// How many there are.
    pub fn count(&self) -> usize {
        self.sums.len()
    }

    /// The sum of the entry, if it is that of this pair.
    fn sum_at(&self, entry: u32, low: Game, high: Game) -> Option<Game>
        ensures { IfSome result (IsKeptSum self.now low high) }
    {
        let kept = self.sums.get(entry as usize)?;
        if kept.low == low && kept.high == high {
            return Some(kept.sum);
        }
        None
    }

    /// The sum of the pair, if it is found.
    #[inline(always)]
    pub fn find(&self, low: Game, high: Game) -> Option<Game>
        ensures { IfSome result (IsKeptSum self.now low high) }
    {
        self.places.find(
            number_of_pair(low, high),
            |entry| self.sum_at(entry, low, high),
        )
    }

    /// Keeps the sum of the pair, unless there is no memory for it.
    pub fn keep(&mut self, low: Game, high: Game, sum: Game)
        ensures { (self.new.sums.items ≡ self.old.sums.items)
            ⊎ (self.new.sums.items ≡ self.old.sums.items ++ (kept_of low high sum ∷ [])) }
    {
        if self.sums.push(KeptSum { low, high, sum }).is_ok() {
            self.places.add(number_of_pair(low, high));
        }
    }
}

impl<'a, B: BoardForms, S: CellStore<GameFacts<B>>> Work<'a, B, S> {
    /// The form of the sum of the two games, if it was kept and is found.
    #[inline(always)]
    pub fn kept_sum(&self, a: Game, b: Game) -> Option<Game>
        requires a { IsIndex self.now.arena a }
        requires b { IsIndex self.now.arena b }
        ensures { IfSome result (λ i. IsAt self.now.arena i
            (can (sum_of (game_of self.now.arena a) (game_of self.now.arena b)))) }
    {
        let (low, high) = in_order(a, b);
        self.cache.memo.interner.pairs.find(low, high)
    }

    /// Keeps the form of the sum of the two games, in either order, unless there is no memory for it.
    #[inline(always)]
    pub fn keep_pair(&mut self, a: Game, b: Game, sum: Game)
        requires a { IsIndex self.old.arena a }
        requires b { IsIndex self.old.arena b }
        requires sum { IsAt self.old.arena sum (can (sum_of (game_of self.old.arena a) (game_of self.old.arena b))) }
        ensures { self.new ≡ self.old }
    {
        let (low, high) = in_order(a, b);
        self.cache.memo.interner.pairs.keep(low, high, sum);
    }
}

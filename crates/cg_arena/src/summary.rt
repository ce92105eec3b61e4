//! What is known of a game besides its order with other games.
ghost use Rattle.std.specs.Prelude.{◌≡◌};
ghost use Rattle.cg_dyadic.specs.Number.{InRange};
ghost use Rattle.cg_form.specs.Game as tree;
ghost use Rattle.cg_form.specs.Game.{number};
ghost use Rattle.cg_arena.specs.Costs.{IsCharge, cost_of};
ghost use Rattle.cg_arena.specs.Summaries.{IsSummary, chosen_cut};

use crate::charge::Charge;
use cg_dyadic::Dyadic;
use cg_dyadic::cut::Cut;

/// What is known of a game: its cuts of the numbers, its depth and the cost of its item.
#[derive(Clone, Copy)]
pub struct Summary {
    /// The numbers that are at most the game.
    pub low: Cut,
    /// The numbers that are at least the game.
    pub high: Cut,
    /// The depth: 0 for a number, and else 1 more than the greatest depth of an option.
    pub depth: u64,
    /// The cost of the game's item: 1 for a narrow and 3 for a long number, and else 1, and 1 more for each option.
    pub cost: u64,
}

/// The cost of a number's item.
pub(crate) fn cost_of_number(x: Dyadic) -> u64
    ensures { result ≡ cost_of (number x) }
{
    if x.is_long() { 3 } else { 1 }
}

impl Summary {
    /// Of a number.
    pub fn number(x: Dyadic) -> Summary
        ensures summary { IsSummary (number x) result }
        ensures in_range { InRange x }
        ensures at { result.low.at ≡ x }
    {
        Summary {
            low: Cut::closed(x),
            high: Cut::closed(x),
            depth: 0,
            cost: cost_of_number(x),
        }
    }

    /// The numbers that are no better for the player than the game.
    pub fn cut(&self, left: bool) -> Cut
        ensures { result ≡ chosen_cut left self.now.low self.now.high }
    {
        if left { self.low } else { self.high }
    }

    /// What the game's item is charged by.
    #[inline(always)]
    pub fn charge(&self) -> Charge
        ensures depth { result.depth ≡ self.now.depth }
        ensures cost { result.cost ≡ self.now.cost }
        ensures charge { (g : tree.Game) → IsSummary g self.now → IsCharge g result }
    {
        Charge {
            depth: self.depth,
            cost: self.cost,
        }
    }
}

//! What the item of a game is charged by.
ghost use Rattle.cg_form.specs.Game.{number};
ghost use Rattle.cg_arena.specs.Costs.{IsCharge};

use crate::summary::cost_of_number;
use cg_dyadic::Dyadic;

/// The depth of a game and the cost of its item.
#[derive(Clone, Copy)]
pub struct Charge {
    /// The depth: 0 for a number, and else 1 more than the greatest depth of an option.
    pub depth: u64,
    /// The cost: 1 for a narrow and 3 for a long number, and else 1, and 1 more for each option.
    pub cost: u64,
}

impl Charge {
    /// Of a number.
    pub fn number(x: Dyadic) -> Charge
        ensures { IsCharge (number x) result }
    {
        Charge {
            depth: 0,
            cost: cost_of_number(x),
        }
    }
}

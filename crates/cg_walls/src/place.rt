//! A walk along a rise.
ghost use Rattle.std.specs.Prelude.{◌≡◌, ℕ, ◌≤◌, ◌<◌, ◌≤ℤ◌, ◌+ℤ◌};
ghost use Rattle.cg_walls.specs.Places.{At, Within, next_of};
ghost use Rattle.cg_walls.specs.Rises.{IsWall, steps, value_at};

use crate::{END, Rise};

/// A place on a rise at some time.
#[derive(Clone, Copy, Debug)]
pub(crate) struct Place {
    pub(crate) value: i128,
    /// Whether it rises from here on.
    pub(crate) up: bool,
    /// How many turns it has passed.
    pub(crate) passed: usize,
}

// The value `by` units later.
fn climbed(p: &Place, by: u128) -> i128
    requires within { Within p.now }
    requires by { by ≤ END }
    ensures { result ≡ p.now.value +ℤ steps p.now.up by }
{
    if p.up {
        p.value + (by as i128)
    } else {
        p.value
    }
}

impl Place {
    fn of(value: i128, up: bool, passed: usize) -> Place
        ensures value { result.value ≡ value }
        ensures up { result.up ≡ up }
        ensures passed { result.passed ≡ passed }
    {
        Place { value, up, passed }
    }

    pub(crate) fn start(rise: &Rise) -> Place
        requires { IsWall rise.now }
        ensures { At rise.now 0 result }
    {
        Place::of(rise.start, rise.first, 0)
    }

    /// The time of the next turn, or the end of all times.
    pub(crate) fn next(&self, rise: &Rise) -> u128
        ensures { result ≡ next_of rise.now self.now }
    {
        if self.passed < rise.turns.len() {
            rise.turns[self.passed]
        } else {
            END
        }
    }

    /// The place at `to`, if no turn comes before.
    pub(crate) fn moved(&self, rise: &Rise, now: u128, to: u128) -> Place
        requires wall { IsWall rise.now }
        requires at { At rise.now now self.now }
        requires later { now < to }
        requires no_turn { to ≤ next_of rise.now self.now }
        ensures { At rise.now to result }
    {
        let value = climbed(self, to - now);
        if self.next(rise) == to && to < END {
            Place::of(value, !self.up, self.passed + 1)
        } else {
            Place::of(value, self.up, self.passed)
        }
    }
}

ghost use Rattle.std.specs.Prelude.{◌≡◌, ℕ, ◌≤ℤ◌, neg_ℤ, IfOk};
ghost use Rattle.cg_walls.specs.declared.TheConstants.{BOUND};
ghost use Rattle.cg_walls.specs.Rises.{IsWall, value_at};

use std::alloc::{AllocError, Global};

/// A function of t = 0, 1, 2, .. that in each unit rises by 1 or stays.
#[derive(Debug, Drop)]
pub struct Rise {
    /// The value at 0.
    pub(crate) start: i128,
    /// Whether it rises at first.
    pub(crate) first: bool,
    /// The times at which it turns from rising to staying, or back.
    pub(crate) turns: Vec<u128>,
}

impl Rise {
    pub(crate) fn of(start: i128, first: bool, turns: Vec<u128>) -> Rise
        ensures start { result.start ≡ start }
        ensures first { result.first ≡ first }
        ensures turns { result.turns.items ≡ turns.items }
    {
        Rise {
            start,
            first,
            turns,
        }
    }

    /// A constant.
    pub fn level(alloc: Global, value: i128) -> Rise
        requires low { neg_ℤ BOUND ≤ℤ value }
        requires high { value ≤ℤ BOUND }
        ensures wall { IsWall result }
        ensures value { (t : ℕ) → value_at result t ≡ value }
    {
        Rise::of(value, false, Vec::new(alloc))
    }

    /// A copy of a wall.
    pub fn copy(&self, alloc: Global) -> Result<Rise, AllocError>
        requires { IsWall self.now }
        ensures wall { IfOk result IsWall }
        ensures value { IfOk result (λ r. (t : ℕ) → value_at r t ≡ value_at self.now t) }
    {
        Ok(Rise {
            start: self.start,
            first: self.first,
            turns: self.turns.to_vec(alloc)?,
        })
    }
}

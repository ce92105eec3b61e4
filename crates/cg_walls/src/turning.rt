//! A scaffold that is constant from some time on.
ghost use Rattle.std.specs.Prelude.{◌≡◌, ℕ, ◌<◌, ◌≤◌, ◌≤ℤ◌, ◌-ℤ◌, pos, IfOk};
ghost use Rattle.cg_walls.specs.declared.TheConstants.{BOUND};
ghost use Rattle.cg_walls.specs.Rises.{IsWall, turned, value_at};

use crate::{END, Rise};
use std::alloc::{AllocError, Global};

/// At each time t up to `end`, t less the value of the wall; constant from there.
#[inline(always)]
pub fn turned(alloc: Global, rise: &Rise, end: u128) -> Result<Rise, AllocError>
    requires wall { IsWall rise.now }
    requires end { end < END }
    requires small { (t : ℕ) → t ≤ end → (pos t -ℤ value_at rise.now t) ≤ℤ BOUND }
    ensures wall { IfOk result IsWall }
    ensures value { IfOk result (λ r. (t : ℕ) → value_at r t ≡ turned rise.now end t) }
{
    let first = !rise.first && end > 0;
    let mut up = first;
    let mut turns = Vec::new(alloc);
    for turn in &rise.turns {
        if *turn < end {
            turns.push(*turn)?;
            up = !up;
        }
    }
    if up {
        turns.push(end)?;
    }
    Ok(Rise::of(-rise.start, first, turns))
}

//! The greater of two walls.
ghost use Rattle.std.specs.Int.{int_max};
ghost use Rattle.std.specs.Prelude.{◌≡◌, ℕ, ◌≤◌, ◌<◌, IfOk};
ghost use Rattle.cg_walls.specs.Places.{At, Within, catch_up, event, leads};
ghost use Rattle.cg_walls.specs.Rises.{IsWall, value_at};

use crate::place::Place;
use crate::{END, Rise};
use std::alloc::{AllocError, Global};

// Whether the greater of the two rises.
fn leads(p: &Place, q: &Place) -> bool
    ensures { result ≡ leads p.now q.now }
{
    if p.value > q.value {
        p.up
    } else if q.value > p.value {
        q.up
    } else {
        p.up || q.up
    }
}

// When p catches up with q, if p is lower and rises while q stays.
fn catch_up(now: u128, p: &Place, q: &Place) -> u128
    requires now { now < END }
    requires p { Within p.now }
    requires q { Within q.now }
    ensures { result ≡ catch_up now p.now q.now }
{
    if p.value < q.value && p.up && !q.up {
        now + q.value.abs_diff(p.value)
    } else {
        END
    }
}

// The time up to which the greater of the two keeps its direction.
fn event(a: &Rise, b: &Rise, now: u128, p: &Place, q: &Place) -> u128
    requires now { now < END }
    requires p { Within p.now }
    requires q { Within q.now }
    ensures { result ≡ event a.now b.now now p.now q.now }
{
    let turn = p.next(a).min(q.next(b));
    let meeting = catch_up(now, p, q).min(catch_up(now, q, p));
    turn.min(meeting)
}

/// The greater of two walls, as a wall.
#[inline(always)]
pub fn higher(alloc: Global, a: &Rise, b: &Rise) -> Result<Rise, AllocError>
    requires a { IsWall a.now }
    requires b { IsWall b.now }
    ensures wall { IfOk result IsWall }
    ensures value { IfOk result (λ r. (t : ℕ) → value_at r t ≡ int_max (value_at a.now t) (value_at b.now t)) }
{
    let mut p = Place::start(a);
    let mut q = Place::start(b);
    let first = leads(&p, &q);
    let mut turns = Vec::new(alloc);
    let mut up = first;
    let mut now = 0;
    let mut to = event(a, b, now, &p, &q);
    while to < END {
        p = p.moved(a, now, to);
        q = q.moved(b, now, to);
        now = to;
        let lead = leads(&p, &q);
        if lead != up {
            turns.push(now)?;
            up = lead;
        }
        to = event(a, b, now, &p, &q);
    }
    Ok(Rise::of(a.start.max(b.start), first, turns))
}

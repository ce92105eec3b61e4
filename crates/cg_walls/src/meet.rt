//! Where two scaffolds meet.
ghost use Rattle.std.specs.Prelude.{◌≡◌, ℕ, ◌≤◌, ◌<◌, ◌+◌, ◌-◌, ◌*◌, ◌%◌, ◌≤ℤ◌};
ghost use Rattle.std.specs.Prelude.{◌<ℤ◌, ◌+ℤ◌, ◌-ℤ◌, pos, negsuc, IfSome, IfNone};
ghost use Rattle.cg_walls.specs.Places.{At, Within, fall};
ghost use Rattle.cg_walls.specs.Rises.{IsWall, gap};

use crate::place::Place;
use crate::{END, Rise};

// The sum of both values, less twice the time.
fn gap_at(now: u128, p: &Place, q: &Place) -> u128
    requires now { now ≤ END }
    requires p { Within p.now }
    requires q { Within q.now }
    requires above { pos 0 ≤ℤ ((p.now.value +ℤ q.now.value) -ℤ (pos now +ℤ pos now)) }
    ensures { pos result ≡ (p.now.value +ℤ q.now.value) -ℤ (pos now +ℤ pos now) }
{
    let twice = (now + now) as i128;
    (p.value + q.value - twice) as u128
}

// How much the gap falls in one unit.
fn falls(p: &Place, q: &Place) -> u128
    ensures { result ≡ fall p.now.up q.now.up }
{
    match (p.up, q.up) {
        (true, true) => 0,
        (true, false) | (false, true) => 1,
        (false, false) => 2,
    }
}

// The time at which the gap reaches 0, if that is a whole number.
fn closes(now: u128, gap: u128, falls: u128) -> Option<u128>
    requires now { now ≤ END }
    requires gap { gap ≤ END }
    requires falls { falls ≡ 0 → gap ≡ 0 }
    ensures closed { IfSome result (λ t. (now ≤ t) × (falls * (t - now) ≡ gap)) }
    ensures still { IfSome result (λ t. gap ≡ 0 → t ≡ now) }
    ensures none { IfNone result (¬ (gap % falls ≡ 0)) }
{
    if gap == 0 {
        Some(now)
    } else if gap % falls == 0 {
        Some(now + gap / falls)
    } else {
        None
    }
}

/// The time t at which the two walls, each less t, add up to 0: the scaffolds over them meet there. None if they pass
/// each other between two whole times.
pub fn meeting(a: &Rise, b: &Rise) -> Option<u128>
    requires a { IsWall a.now }
    requires b { IsWall b.now }
    requires start { pos 0 ≤ℤ gap a.now b.now 0 }
    ensures met { IfSome result (λ t. gap a.now b.now t ≡ pos 0) }
    ensures first { IfSome result (λ t. (u : ℕ) → u < t → pos 0 <ℤ gap a.now b.now u) }
    ensures none { IfNone result ((t : ℕ) × (gap a.now b.now t ≡ pos 1) × (gap a.now b.now (t + 1) ≡ negsuc 0)) }
{
    let mut p = Place::start(a);
    let mut q = Place::start(b);
    let mut now = 0;
    while now < END {
        let to = p.next(a).min(q.next(b));
        let gap = gap_at(now, &p, &q);
        let falls = falls(&p, &q);
        if gap <= falls * (to - now) {
            return closes(now, gap, falls);
        }
        p = p.moved(a, now, to);
        q = q.moved(b, now, to);
        now = to;
    }
    unreachable!()
}

//! The value of a wall at a temperature, read off its corners.
ghost use Rattle.std.specs.Prelude.{◌≡◌, ◌≤◌, ◌^◌, ℤ, [], IfNone, IfSome, unsigned_abs};
ghost use Rattle.cg_dyadic.specs.Number.{Number};
ghost use Rattle.cg_dyadic.specs.Units.{units};
ghost use Rattle.cg_dyadic.specs.Wide.{InWide, places};
ghost use Rattle.cg_walls.specs.Lines.{OnLine, TimesRise, further};
ghost use Rattle.cg_thermo.specs.WallLine.{IsOnLine, marks_at};

use crate::corners::{Corner, Corners};
use cg_dyadic::Wide;

// So many units, if they are a wall value.
fn bounded(value: i128) -> Option<Wide>
    ensures some { IfSome result (λ x. units places x ≡ value) }
    ensures wide { IfSome result InWide }
    ensures none { IfNone result (2 ^ 126 ≤ unsigned_abs value) }
{
    if value.unsigned_abs() < 1 << 126 {
        Some(Wide::of_units(value))
    } else {
        None
    }
}

// n further from a toward b, if that is a word.
fn moved(a: i128, b: i128, n: i128) -> Option<i128>
    ensures some { IfSome result (λ v. v ≡ further a b n) }
    ensures none { IfNone result (2 ^ 126 ≤ unsigned_abs (further a b n)) }
{
    if a < b {
        a.checked_add(n)
    } else if b < a {
        a.checked_sub(n)
    } else {
        Some(a)
    }
}

// n further from a toward b, if that is a wall value.
fn toward(a: i128, b: i128, n: i128) -> Option<Wide>
    ensures some { IfSome result (λ x. units places x ≡ further a b n) }
    ensures wide { IfSome result InWide }
    ensures none { IfNone result (2 ^ 126 ≤ unsigned_abs (further a b n)) }
{
    match moved(a, b, n) {
        Some(value) => bounded(value),
        None => None,
    }
}

// The value of the line of the corners, in units of 1/2^60, if it is a wall value.
fn line_of(items: &[Corner], t: Wide) -> Option<Wide>
    requires some { ¬ (items.now ≡ []) }
    requires rise { TimesRise (marks_at places items.now) }
    ensures some { IfSome result (λ x. OnLine (marks_at places items.now) (units places t) (units places x)) }
    ensures wide { IfSome result InWide }
    ensures time { InWide t }
    ensures none { IfNone result ((n : ℤ) → OnLine (marks_at places items.now) (units places t) n
        → 2 ^ 126 ≤ unsigned_abs n) }
{
    let time = t.units();
    let mut value = items[0].value.units();
    let mut from = items[0].at.units();
    for corner in items {
        let next = corner.value.units();
        let at = corner.at.units();
        if at > time {
            return toward(value, next, time - from);
        }
        value = next;
        from = at;
    }
    bounded(value)
}

/// The value at the temperature t of the wall with these corners, of which there must be one. None comes exactly where
/// it is no wall value.
pub fn wall_at(corners: &Corners, t: Wide) -> Option<Wide>
    requires { ¬ (corners.now ≡ []) }
    ensures some { IfSome result (λ x. IsOnLine corners.now t x) }
    ensures none { IfNone result ((x : Number) → IsOnLine corners.now t x → ¬ InWide x) }
{
    line_of(corners.as_slice(), t)
}

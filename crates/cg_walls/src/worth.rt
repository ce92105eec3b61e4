//! The value of a wall at a time.
ghost use Rattle.std.specs.Prelude.{◌≡◌, ◌<◌};
ghost use Rattle.cg_walls.specs.Rises.{IsWall, value_at};

use crate::place::Place;
use crate::{END, Rise};

/// The value of the wall at this time.
pub fn value(rise: &Rise, at: u128) -> i128
    requires wall { IsWall rise.now }
    requires at { at < END }
    ensures { result ≡ value_at rise.now at }
{
    let mut p = Place::start(rise);
    let mut now = 0;
    while p.next(rise) < at {
        let to = p.next(rise);
        p = p.moved(rise, now, to);
        now = to;
    }
    if now < at {
        p = p.moved(rise, now, at);
    }
    p.value
}

//! The points at which a wall bends.
ghost use Rattle.std.specs.Prelude.{◌≡◌, ◌<◌, IfOk};
ghost use Rattle.cg_walls.specs.Corners.{corners, marks};
ghost use Rattle.cg_walls.specs.Fits.{AllFit};
ghost use Rattle.cg_walls.specs.Lines.{TimesRise};
ghost use Rattle.cg_walls.specs.Rises.{IsWall, value_at};

use crate::place::Place;
use crate::{END, Rise};
use std::alloc::{AllocError, Global};

/// A point of a wall: its value at a time.
#[derive(Clone, Copy, Debug)]
pub struct Point {
    pub value: i128,
    pub at: u128,
}

impl Point {
    /// The point with this value at this time.
    pub fn of(value: i128, at: u128) -> Point
        ensures value { result.value ≡ value }
        ensures at { result.at ≡ at }
    {
        Point { value, at }
    }
}

/// The points at time 0, at each bend before the end, and at the end if that is above 0.
pub fn points(alloc: Global, rise: &Rise, end: u128) -> Result<Vec<Point>, AllocError>
    requires wall { IsWall rise.now }
    requires end { end < END }
    ensures corners { IfOk result (λ ps. ps.items ≡ corners (value_at rise.now) end) }
    ensures rise { IfOk result (λ ps. TimesRise (marks ps.items)) }
    ensures fit { IfOk result (λ ps. AllFit ps.items) }
{
    let mut points = Vec::new(alloc);
    points.push(Point::of(rise.start, 0))?;
    let mut p = Place::start(rise);
    let mut now = 0;
    while p.next(rise) < end {
        let to = p.next(rise);
        p = p.moved(rise, now, to);
        now = to;
        points.push(Point::of(p.value, now))?;
    }
    if now < end {
        let last = p.moved(rise, now, end);
        points.push(Point::of(last.value, end))?;
    }
    Ok(points)
}

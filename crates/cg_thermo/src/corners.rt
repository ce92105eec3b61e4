//! Corners of walls.
ghost use Rattle.std.specs.Prelude.{◌≡◌, ◌↔◌, IfOk, IsTrue, [], length, map};
ghost use Rattle.cg_walls.specs.Corners.{marks};
ghost use Rattle.cg_walls.specs.Fits.{AllFit, PointFits};
ghost use Rattle.cg_walls.specs.Lines.{TimesRise};
ghost use Rattle.cg_dyadic.specs.Wide.{places};
ghost use Rattle.cg_thermo.specs.Signed.{corner_at};
ghost use Rattle.cg_thermo.specs.WallLine.{AllWhole, AreCorners, marks_at};

use cg_dyadic::Wide;
use cg_walls::Point;
use std::alloc::{AllocError, Global};
use std::marker::Model;

/// A corner of a wall.
#[derive(Clone, Copy, Debug, PartialEq, Eq)]
pub struct Corner {
    /// The value.
    pub value: Wide,
    /// The temperature.
    pub at: Wide,
}

/// The corners of a wall, in their order; their times rise. Contracts see a list of corners.
#[derive(Debug, Drop)]
pub struct Corners {
    items: Vec<Corner>,
}

impl Model for Corners {
    ghost use Rattle.std.specs.Prelude.{List};
    ghost use Rattle.cg_thermo.specs.declared.corners.Corner.{Corner};

    ghost Value = { List Corner };

    ghost use Rattle.cg_thermo.specs.WallLine.{AreCorners};

    ghost view = { λ a. a.items.items };

    ghost invariant = { λ a. AreCorners a.items.items };
}

impl Corners {
    /// These corners, whose times rise.
    pub fn of(items: Vec<Corner>) -> Corners
        requires { AreCorners items.items }
        ensures { result ≡ items.items }
    {
        Corners { items }
    }

    /// How many there are.
    pub fn len(&self) -> usize
        ensures { result ≡ length self.now }
    {
        self.items.len()
    }

    /// Whether there is none.
    pub fn is_empty(&self) -> bool
        ensures { IsTrue result ↔ (self.now ≡ []) }
    {
        self.items.is_empty()
    }

    /// The corners, in their order.
    pub fn as_slice(&self) -> &[Corner]
        ensures items { result.now ≡ self.now }
        ensures whole { AllWhole places self.now }
        ensures rise { TimesRise (marks_at places self.now) }
    {
        &self.items
    }

    /// The corners in a vector, in their order.
    pub fn into_vec(self) -> Vec<Corner>
        ensures items { result.items ≡ self }
        ensures corners { AreCorners self }
    {
        let Corners { items } = self;
        items
    }
}

// The value of the point, or its negative.
fn signed(negated: bool, point: &Point) -> Wide
    requires { PointFits point.now }
    ensures { result ≡ (corner_at negated point.now).value }
{
    if negated {
        Wide::of_units(-point.value)
    } else {
        Wide::of_units(point.value)
    }
}

// The corner at the point.
fn at_point(negated: bool, point: &Point) -> Corner
    requires { PointFits point.now }
    ensures { result ≡ corner_at negated point.now }
{
    Corner {
        value: signed(negated, point),
        at: Wide::of_units(point.at as i128),
    }
}

/// The corners at the points, with the negatives of their values or with these. The only error is out of memory.
pub(crate) fn corners_of(
    alloc: Global,
    points: &[Point],
    negated: bool,
) -> Result<Corners, AllocError>
    requires fit { AllFit points.now }
    requires rise { TimesRise (marks points.now) }
    ensures { IfOk result (λ cs. cs ≡ map (corner_at negated) points.now) }
{
    let mut items = Vec::new(alloc);
    for point in points {
        items.push(at_point(negated, point))?;
    }
    Ok(Corners { items })
}

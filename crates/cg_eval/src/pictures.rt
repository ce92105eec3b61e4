//! What is shown of stops and thermographs, as text.
ghost use Rattle.std.specs.Prelude.{◌≡◌, IfOk, string_bytes};
ghost use Rattle.cg_eval.specs.Parts.{part_text};
ghost use Rattle.cg_eval.specs.Pictures.{corner_text, corners_text, stops_text, thermograph_text};

use cg_thermo::{Corner, Stops, Walls};
use std::alloc::{AllocError, Global};

/// What may be asked of a thermograph.
#[derive(Clone, Copy, Debug, PartialEq, Eq)]
pub enum Part {
    /// The mean.
    Mean,
    /// The temperature.
    Temp,
    /// All of it.
    Whole,
}

/// `left x right y`.
pub(crate) fn stops_text(alloc: Global, stops: &Stops) -> Result<String, AllocError>
    ensures { IfOk result (λ text. string_bytes text ≡ stops_text stops.now.left stops.now.right) }
{
    let left = stops.left.text(alloc)?;
    let right = stops.right.text(alloc)?;
    format!(in alloc; "left {left} right {right}")
}

/// `value@t`.
fn corner_text(alloc: Global, corner: &Corner) -> Result<String, AllocError>
    ensures { IfOk result (λ text. string_bytes text ≡ corner_text corner.now) }
{
    let value = corner.value.text(alloc)?;
    let at = corner.at.text(alloc)?;
    format!(in alloc; "{value}@{at}")
}

/// The corners, each with a blank before it.
fn corners_text(alloc: Global, corners: &[Corner]) -> Result<String, AllocError>
    ensures { IfOk result (λ text. string_bytes text ≡ corners_text corners.now) }
{
    let mut all = String::new(alloc);
    for corner in corners {
        let text = corner_text(alloc, corner)?;
        all.push_str(" ")?;
        all.push_str(text.as_str())?;
    }
    Ok(all)
}

/// `mean m temp t left C right D`.
fn thermograph_text(alloc: Global, walls: &Walls) -> Result<String, AllocError>
    ensures { IfOk result (λ text. string_bytes text ≡ thermograph_text walls.now) }
{
    let mean = walls.mean.text(alloc)?;
    let temp = walls.temp.text(alloc)?;
    let left = corners_text(alloc, walls.left.as_slice())?;
    let right = corners_text(alloc, walls.right.as_slice())?;
    format!(in alloc; "mean {mean} temp {temp} left{left} right{right}")
}

/// The text of this part of the thermograph.
pub(crate) fn part_text(alloc: Global, part: Part, walls: &Walls) -> Result<String, AllocError>
    ensures { IfOk result (λ text. string_bytes text ≡ part_text part walls.now) }
{
    match part {
        Part::Mean => walls.mean.text(alloc),
        Part::Temp => walls.temp.text(alloc),
        Part::Whole => thermograph_text(alloc, walls),
    }
}

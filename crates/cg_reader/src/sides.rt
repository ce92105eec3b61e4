//! Sides of braces, as their expressions come.
ghost use Rattle.std.specs.Prelude.{map, Ok, ◌∷◌, ◌++◌, []};
ghost use Rattle.cg_reading.specs.Gives.{Gives};
ghost use Rattle.cg_grammar.specs.Braces.{side_trees};
ghost use Rattle.cg_query.specs.Trees.{tree_of};
ghost use Rattle.cg_reader.specs.Views.{found_of, sound, side_found};

use crate::found::{Found, Side};
use cg_query::Expr;
use cg_reading::ReadFault;
use std::alloc::Global;

/// These expressions, none of them with a fault.
fn without_faults(alloc: Global, exprs: Vec<Expr>) -> Result<Vec<Found>, ReadFault>
    ensures { Gives (λ v. map found_of v.items) result (Ok (map sound exprs.items)) }
{
    let mut founds = Vec::with_capacity(alloc, exprs.len())?;
    for expr in exprs {
        founds.push(Found { expr, fault: None })?;
    }
    Ok(founds)
}

/// The side with one item more behind it, which may have a fault.
#[inline(never)]
fn with_fault(alloc: Global, side: Side, found: Found) -> Result<Side, ReadFault>
    ensures { Gives side_found result (Ok (side_found side ++ found_of found ∷ [])) }
{
    let mut founds = match side {
        Side::Sound(exprs) => without_faults(alloc, exprs)?,
        Side::Faulty(founds) => founds,
    };
    founds.push(found)?;
    Ok(Side::Faulty(founds))
}

/// The side with one item more behind it.
#[inline(always)]
pub fn with_item(alloc: Global, side: Side, found: Found) -> Result<Side, ReadFault>
    ensures { Gives side_found result (Ok (side_found side ++ found_of found ∷ [])) }
{
    match side {
        Side::Sound(exprs) if found.fault.is_none() => {
            let mut exprs = exprs;
            exprs.push(found.expr)?;
            Ok(Side::Sound(exprs))
        }
        side => with_fault(alloc, side, found),
    }
}

/// The expressions of these.
fn exprs_of(alloc: Global, founds: Vec<Found>) -> Result<Vec<Expr>, ReadFault>
    ensures { Gives (λ v. map tree_of v.items) result (Ok (side_trees (map found_of founds.items))) }
{
    let mut exprs = Vec::with_capacity(alloc, founds.len())?;
    for found in founds {
        exprs.push(found.expr)?;
    }
    Ok(exprs)
}

/// The expressions of a side.
#[inline(always)]
#[tactic(auto, using(crate::proofs::SoundSides::sound_trees))]
pub fn exprs(alloc: Global, side: Side) -> Result<Vec<Expr>, ReadFault>
    ensures { Gives (λ v. map tree_of v.items) result (Ok (side_trees (side_found side))) }
{
    match side {
        Side::Sound(exprs) => Ok(exprs),
        Side::Faulty(founds) => exprs_of(alloc, founds),
    }
}

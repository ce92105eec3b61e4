//! Rows of sides with runs of bars between them, split into Left and Right sides at their longest runs.
ghost use Rattle.std.specs.Prelude.{◌≡◌, ◌≤◌, List, map, Ok, [], IfNone, IfSome};
ghost use Rattle.cg_reading.specs.Gives.{Gives};
ghost use Rattle.cg_grammar.specs.Braces.{cut_from, part_of, Whole};
ghost use Rattle.cg_query.specs.Trees.{tree_of};
ghost use Rattle.cg_grammar.specs.Found.{Found as found};
ghost use Rattle.cg_reader.specs.Views.{side_found, rows_of, cut_of, halves_of};
ghost use Rattle.cg_reader.specs.Cuts.{IsFirstRun};

use crate::found::{Row, Side};
use crate::sides::exprs;
use cg_query::{Expr, Exprs};
use cg_reading::ReadFault;
use std::alloc::Global;

/// A row with no run of a length, or the rows before its first such run, the side behind that, and the rows behind it.
#[derive(Drop)]
pub enum Cut {
    Whole(Vec<Row>),
    Parts(Vec<Row>, Side, Vec<Row>),
}

/// What a part comes to: the options of one without a run, or those of both sides of its longest run.
#[derive(Drop)]
pub enum Halves {
    Options(Vec<Expr>),
    Sides(Vec<Expr>, Vec<Expr>),
}

/// The place of the first run of this length.
fn first_run(bars: u64, rows: &[Row]) -> Option<usize>
    ensures none { IfNone result (cut_from [] bars (rows_of rows.now) ≡ Whole (rows_of rows.now)) }
    ensures some { IfSome result (IsFirstRun bars rows.now) }
{
    let mut index = 0;
    let mut rest = rows;
    while let Some((row, others)) = rest.split_first() {
        if row.bars == bars {
            return Some(index);
        }
        index += 1;
        rest = others;
    }
    None
}

/// Cuts at the first run of this length.
#[inline(always)]
fn cut_at(alloc: Global, bars: u64, rows: Vec<Row>) -> Result<Cut, ReadFault>
    ensures { Gives cut_of result (Ok (cut_from [] bars (rows_of rows.items))) }
{
    let Some(index) = first_run(bars, &rows) else {
        return Ok(Cut::Whole(rows));
    };
    if index == 0 {
        let mut behind = rows;
        let row = behind.remove(0);
        return Ok(Cut::Parts(Vec::new(alloc), row.side, behind));
    }
    let mut before = rows;
    let behind = before.split_off(index + 1)?;
    let row = before.remove(index);
    Ok(Cut::Parts(before, row.side, behind))
}

/// The length of the longest run of at most so many bars, or 0 where there is none.
fn longest(most: u64, rows: &[Row]) -> u64
    ensures within { result ≤ most }
    ensures same { (side : List found) → part_of most side (rows_of rows.now) ≡ part_of result side (rows_of rows.now) }
{
    let mut bars = most;
    while bars > 0 && first_run(bars, rows).is_none() {
        bars -= 1;
    }
    bars
}

/// What a part comes to whose runs have so many bars at most.
#[cycle(part)]
#[tactic(auto, using(cg_grammar::proofs::Parts::part_step, cg_grammar::proofs::Parts::part_none))]
pub fn split_part(alloc: Global, most: u64, side: Side, rows: Vec<Row>) -> Result<Halves, ReadFault>
    ensures { Gives halves_of result
        (Ok (part_of most (side_found side) (rows_of rows.items))) }
{
    let bars = longest(most, &rows);
    if bars == 0 {
        return Ok(Halves::Options(exprs(alloc, side)?));
    }
    match cut_at(alloc, bars, rows)? {
        Cut::Whole(rows) => split_part(alloc, bars - 1, side, rows),
        Cut::Parts(before, middle, behind) => {
            let lefts = part(alloc, bars - 1, side, before)?;
            let rights = part(alloc, bars - 1, middle, behind)?;
            Ok(Halves::Sides(lefts, rights))
        }
    }
}

/// The options of a part whose runs have so many bars at most.
#[cycle(part)]
#[inline(always)]
#[tactic(auto, using(crate::proofs::OneRun::part_alone))]
fn part(alloc: Global, most: u64, side: Side, rows: Vec<Row>) -> Result<Vec<Expr>, ReadFault>
    ensures { Gives (λ v. map tree_of v.items) result
        (Ok (part_of most (side_found side) (rows_of rows.items))) }
{
    if rows.is_empty() {
        return exprs(alloc, side);
    }
    options(alloc, split_part(alloc, most, side, rows)?)
}

/// The options of a part that comes to these. Two sides are one option, their brace.
#[inline(always)]
#[tactic(auto, using(cg_query::proofs::TreeOf::braces_tree))]
fn options(alloc: Global, halves: Halves) -> Result<Vec<Expr>, ReadFault>
    ensures { Gives (λ v. map tree_of v.items) result (Ok (halves_of halves)) }
{
    match halves {
        Halves::Options(exprs) => Ok(exprs),
        Halves::Sides(lefts, rights) => {
            let mut one = Vec::with_capacity(alloc, 1)?;
            one.push(Expr::Braces(Exprs::of(lefts), Exprs::of(rights)))?;
            Ok(one)
        }
    }
}

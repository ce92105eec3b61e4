//! Expressions from their parts.
ghost use Rattle.std.specs.Prelude.{map, ◌≡◌, ◌≤◌, ℕ, Ok, ◌∷◌, [], false, length, IfOk};
ghost use Rattle.cg_reading.specs.Gives.{Gives};
ghost use Rattle.cg_grammar.specs.Braces.{only_tree};
ghost use Rattle.cg_grammar.specs.Reading.{tail_of_at};
ghost use Rattle.cg_query.specs.Tree.{sum, terms_from};
ghost use Rattle.cg_query.specs.Trees.{tree_of, terms_of};
ghost use Rattle.cg_grammar.specs.Values.{with_tail, negated, times_of, together, run_side, braces_of as braces_value};
ghost use Rattle.cg_reader.specs.Views.{arrows_option, found_of, halves_of, nimber_option, row_list, side_found};

use crate::arrows::{Arrows, is_arrow, nimber_expr, tail};
use crate::faults::{earlier, rows_fault, side_fault};
use crate::found::{Found, Rows, Side};
use crate::sides::exprs;
use crate::split::{Halves, split_part};
use cg_query::{Expr, Exprs, Term, Terms};
use cg_reading::{ReadFault, is_byte};
use std::alloc::Global;

/// An operand with what stands together behind it.
#[inline(always)]
pub fn joined(
    alloc: Global,
    found: Found,
    ups: Option<Arrows>,
    nim: Option<u128>,
) -> Result<Found, ReadFault>
    ensures { Gives found_of result
        (Ok (with_tail (found_of found) (arrows_option ups, nimber_option nim))) }
{
    let fault = found.fault;
    let expr = found.expr;
    let expr = match ups {
        None => match nim {
            None => expr,
            Some(nim) => of_two(alloc, expr, nimber_expr(nim))?,
        },
        Some(ups) => match nim {
            None => of_two(alloc, expr, ups.expr())?,
            Some(nim) => of_three(alloc, expr, ups.expr(), nimber_expr(nim))?,
        },
    };
    Ok(Found { expr, fault })
}

/// An operand that was read, with the ups and the nimber that may stand together behind it.
#[inline(always)]
#[tactic(auto, unfolding(cg_grammar::specs::Reading::tail_of_at, cg_grammar::specs::OperandReading::tail_at, cg_grammar::specs::OperandReading::ups_option_at, cg_grammar::specs::OperandReading::nim_option_at))]
pub fn behind_operand(
    alloc: Global,
    operand: Found,
    bytes: &[u8],
) -> Result<(Found, &[u8]), ReadFault>
    ensures read { (end : ℕ) → Gives (λ x. (found_of x.0, x.1.now)) result
        (tail_of_at (found_of operand) end bytes.now) }
    ensures shorter { IfOk result (λ x. length x.1.now ≤ length bytes.now) }
{
    match bytes.split_first() {
        Some((first, _)) if is_arrow(*first) => with_tail(alloc, operand, bytes),
        Some((first, _)) if is_byte(b'*', *first) => with_tail(alloc, operand, bytes),
        _ => Ok((operand, bytes)),
    }
}

/// Like `behind_operand`, without looking ahead.
#[inline(never)]
#[tactic(auto, unfolding(cg_grammar::specs::Reading::tail_of_at))]
fn with_tail(alloc: Global, operand: Found, bytes: &[u8]) -> Result<(Found, &[u8]), ReadFault>
    ensures read { (end : ℕ) → Gives (λ x. (found_of x.0, x.1.now)) result
        (tail_of_at (found_of operand) end bytes.now) }
    ensures shorter { IfOk result (λ x. length x.1.now ≤ length bytes.now) }
{
    let ((ups, nim), rest) = tail(bytes)?;
    let found = joined(alloc, operand, ups, nim)?;
    Ok((found, rest))
}

/// The sum of these terms.
#[tactic(auto, using(cg_query::proofs::TreeOf::sum_tree))]
pub fn sum_of_terms(terms: Vec<Term>) -> Expr
    ensures { tree_of result ≡ sum (terms_from (terms_of terms.items)) }
{
    Expr::Sum(Terms::of(terms))
}

#[inline(always)]
#[tactic(auto, using(cg_query::proofs::TreeOf::two_terms))]
fn of_two(alloc: Global, first: Expr, second: Expr) -> Result<Expr, ReadFault>
    ensures { Gives tree_of result (Ok (together (tree_of first) ((false, tree_of second) ∷ []))) }
{
    let mut terms = Vec::with_capacity(alloc, 2)?;
    terms.push(Term {
        minus: false,
        expr: first,
    })?;
    terms.push(Term {
        minus: false,
        expr: second,
    })?;
    Ok(sum_of_terms(terms))
}

#[inline(always)]
#[tactic(auto, using(cg_query::proofs::TreeOf::three_terms))]
fn of_three(alloc: Global, first: Expr, second: Expr, third: Expr) -> Result<Expr, ReadFault>
    ensures { Gives tree_of result
        (Ok (together (tree_of first) ((false, tree_of second) ∷ (false, tree_of third) ∷ []))) }
{
    let mut terms = Vec::with_capacity(alloc, 3)?;
    terms.push(Term {
        minus: false,
        expr: first,
    })?;
    terms.push(Term {
        minus: false,
        expr: second,
    })?;
    terms.push(Term {
        minus: false,
        expr: third,
    })?;
    Ok(sum_of_terms(terms))
}

/// The negative.
#[tactic(auto, using(cg_query::proofs::TreeOf::negative_tree))]
pub fn negative(alloc: Global, found: Found) -> Result<Found, ReadFault>
    ensures { Gives found_of result (Ok (negated (found_of found))) }
{
    let fault = found.fault;
    let expr = Expr::Negative(Box::new(alloc, found.expr)?);
    Ok(Found { expr, fault })
}

/// A multiple, or its negative.
#[tactic(auto, using(cg_query::proofs::TreeOf::multiple_tree))]
pub fn multiple(
    alloc: Global,
    is_negative: bool,
    count: u128,
    found: Found,
) -> Result<Found, ReadFault>
    ensures { Gives found_of result (Ok (times_of is_negative count (found_of found))) }
{
    let fault = found.fault;
    let expr = Expr::Multiple(count, Box::new(alloc, found.expr)?);
    let found = Found { expr, fault };
    if is_negative {
        negative(alloc, found)
    } else {
        Ok(found)
    }
}

/// The braces of these rows.
pub fn braces_of(alloc: Global, side: Side, rows: Rows) -> Result<Found, ReadFault>
    ensures { Gives found_of result
        (Ok (braces_value (side_found side) (map run_side (row_list rows)))) }
{
    if rows.more.is_empty() && 1 <= rows.first.bars && rows.first.bars <= 8 {
        return of_two_sides(alloc, side, rows.first.side);
    }
    let mut all = rows.more;
    all.insert(0, rows.first)?;
    let fault = earlier(side_fault(&side), rows_fault(&all));
    let halves = split_part(alloc, 8, side, all)?;
    let expr = brace(alloc, halves);
    Ok(Found { expr, fault })
}

/// The braces of two sides with one run of bars between them.
#[inline(always)]
fn of_two_sides(alloc: Global, left: Side, right: Side) -> Result<Found, ReadFault>
    ensures { (bars : ℕ) → 1 ≤ bars → bars ≤ 8 → (column : ℕ) → Gives found_of result
        (Ok (braces_value (side_found left) (run_side ((column, bars), side_found right) ∷ []))) }
{
    let fault = earlier(side_fault(&left), side_fault(&right));
    let lefts = Exprs::of(exprs(alloc, left)?);
    let rights = Exprs::of(exprs(alloc, right)?);
    let expr = Expr::Braces(lefts, rights);
    Ok(Found { expr, fault })
}

/// The brace of two sides, or the only one of these options.
#[tactic(auto, using(cg_query::proofs::TreeOf::braces_tree))]
fn brace(alloc: Global, halves: Halves) -> Expr
    ensures { tree_of result ≡ only_tree (halves_of halves) }
{
    match halves {
        Halves::Options(exprs) => only(alloc, exprs),
        Halves::Sides(lefts, rights) => Expr::Braces(Exprs::of(lefts), Exprs::of(rights)),
    }
}

/// The only one of these, or braces of nothing.
#[tactic(auto, using(cg_query::proofs::TreeOf::empty_braces))]
fn only(alloc: Global, parts: Vec<Expr>) -> Expr
    ensures { tree_of result ≡ only_tree (map tree_of parts.items) }
{
    if parts.is_empty() {
        let none = Exprs::of(Vec::new(alloc));
        return Expr::Braces(none, Exprs::of(Vec::new(alloc)));
    }
    let mut parts = parts;
    parts.remove(0)
}

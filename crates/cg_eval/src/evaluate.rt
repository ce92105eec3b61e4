//! Expressions, on handles.
ghost use Rattle.std.specs.Prelude.{◌++◌};
ghost use Rattle.cg_form.specs.Game.{Game};
ghost use Rattle.cg_form.specs.Sum as sums;
ghost use Rattle.cg_nodes.specs.Can.{can};
ghost use Rattle.cg_nodes.specs.Games.{IsGame, StandsFor, game_at};
ghost use Rattle.cg_canon.specs.Works.{work_state};
ghost use Rattle.cg_canon.specs.SumItems.{sum_items};
ghost use Rattle.cg_names.specs.Meaning.{signed};
ghost use Rattle.cg_eval.specs.Faults.{fault_in, fault_in_terms};
ghost use Rattle.cg_eval.specs.Meaning.{meaning, total_with};
ghost use Rattle.cg_eval.specs.Items.{further_items, term_part};
ghost use Rattle.cg_eval.specs.Progress.{Evaluates, EvaluatesAll, Finds};
ghost use Rattle.cg_query.specs.Tree.{terms_from, trees_from};
ghost use Rattle.cg_query.specs.Tree as trees;
ghost use Rattle.cg_query.specs.Trees.{terms_in, terms_of, tree_of, trees_in};

use crate::fault::{NoValue, widen};
use crate::forms::CgBoards;
use crate::heaps::heap_value;
use crate::named::{literal, named_nimber, named_switch, named_tiny, named_ups, nothing};
use crate::positions::board_value;
use cg_canon::{Work, canonical};
use cg_cells::CellStore;
use cg_nodes::{GameFacts, Handle};
use cg_sum::{multiple, negative, sum};
use cg_syntax::{Expr, Exprs, Term, Terms};
use std::alloc::Global;

/// The canonical form of what the expression means. It goes through the expression from the left, reads each board and
/// heap, and makes the items in order. The cause is that of the first board or heap that is ill-formed, or of the first
/// item that is refused, whichever it comes to first; or out of memory.
#[cycle(evaluate)]
pub fn evaluate<S: CellStore<GameFacts<CgBoards>>>(
    alloc: Global,
    work: &mut Work<CgBoards, S>,
    expr: &Expr,
) -> Result<Handle, NoValue>
    ensures { Evaluates (work_state S.state work.old) (work_state S.state work.new) (tree_of expr.now) result }
{
    match expr {
        Expr::Number { negative, num, den } => literal(alloc, work, *negative, *num, *den),
        Expr::Ups { down, count } => named_ups(alloc, work, *down, *count),
        Expr::Nimber(count) => named_nimber(alloc, work, *count),
        Expr::Switch { num, den } => named_switch(alloc, work, *num, *den),
        Expr::Tiny { miny, num, den } => named_tiny(alloc, work, *miny, *num, *den),
        Expr::Braces(lefts, rights) => braces(alloc, work, lefts, rights),
        Expr::Negative(inner) => minus(alloc, work, inner),
        Expr::Multiple(count, inner) => times(alloc, work, *count, inner),
        Expr::Sum(terms) => total(alloc, work, terms),
        Expr::Game { kind, rules, board } => board_value(alloc, work, *kind, rules, board),
        Expr::Octal { code, heap } => heap_value(alloc, work, code, *heap),
        // A name that isn't replaced by what it stands for.
        Expr::Name { .. } => nothing(alloc, work),
    }
}

/// The canonical forms of what the expressions mean, in order.
#[cycle(evaluate)]
fn evaluate_all<S: CellStore<GameFacts<CgBoards>>>(
    alloc: Global,
    work: &mut Work<CgBoards, S>,
    exprs: &Exprs,
) -> Result<Vec<Handle>, NoValue>
    ensures { EvaluatesAll (work_state S.state work.old) (work_state S.state work.new)
        (trees_from (trees_in exprs.now)) result }
{
    let mut handles = Vec::new(alloc);
    for expr in exprs.as_slice() {
        let handle = evaluate(alloc, work, expr)?;
        handles.push(handle)?;
    }
    Ok(handles)
}

/// The braces of the expressions.
#[cycle(evaluate)]
fn braces<S: CellStore<GameFacts<CgBoards>>>(
    alloc: Global,
    work: &mut Work<CgBoards, S>,
    lefts: &Exprs,
    rights: &Exprs,
) -> Result<Handle, NoValue>
    ensures { Evaluates (work_state S.state work.old) (work_state S.state work.new)
        (trees.braces (trees_in lefts.now) (trees_in rights.now)) result }
{
    let left_handles = evaluate_all(alloc, work, lefts)?;
    let right_handles = evaluate_all(alloc, work, rights)?;
    widen(canonical(alloc, work, &left_handles, &right_handles, 0))
}

/// The negative of the expression.
#[cycle(evaluate)]
fn minus<S: CellStore<GameFacts<CgBoards>>>(
    alloc: Global,
    work: &mut Work<CgBoards, S>,
    expr: &Expr,
) -> Result<Handle, NoValue>
    ensures { Evaluates (work_state S.state work.old) (work_state S.state work.new)
        (trees.negative (tree_of expr.now)) result }
{
    let value = evaluate(alloc, work, expr)?;
    widen(negative(alloc, work, value))
}

/// So many times the expression.
#[cycle(evaluate)]
fn times<S: CellStore<GameFacts<CgBoards>>>(
    alloc: Global,
    work: &mut Work<CgBoards, S>,
    count: u128,
    expr: &Expr,
) -> Result<Handle, NoValue>
    ensures { Evaluates (work_state S.state work.old) (work_state S.state work.new)
        (trees.multiple count (tree_of expr.now)) result }
{
    let value = evaluate(alloc, work, expr)?;
    widen(multiple(alloc, work, count, value))
}

/// The sum of the terms, and 0 where there is none.
#[cycle(evaluate)]
fn total<S: CellStore<GameFacts<CgBoards>>>(
    alloc: Global,
    work: &mut Work<CgBoards, S>,
    terms: &Terms,
) -> Result<Handle, NoValue>
    ensures { Evaluates (work_state S.state work.old) (work_state S.state work.new)
        (trees.sum (terms_from (terms_in terms.now))) result }
{
    match terms.as_slice().split_first() {
        None => nothing(alloc, work),
        Some((first, others)) => {
            let start = signed(alloc, work, first.minus, &first.expr)?;
            further(alloc, work, start, others)
        }
    }
}

/// The sum of the game and the terms.
#[cycle(evaluate)]
fn further<S: CellStore<GameFacts<CgBoards>>>(
    alloc: Global,
    work: &mut Work<CgBoards, S>,
    start: Handle,
    terms: &[Term],
) -> Result<Handle, NoValue>
    requires { IsGame (work_state S.state work.old) start }
    ensures { (g : Game) → StandsFor (work_state S.state work.old) start (can g)
        → Finds (work_state S.state work.old) (work_state S.state work.new)
        (fault_in_terms (terms_from (terms_of terms.now)))
        (further_items work.old.limit g (terms_from (terms_of terms.now)))
        (total_with g (terms_from (terms_of terms.now))) result }
{
    let mut so_far = start;
    for term in terms {
        so_far = added(alloc, work, so_far, term.minus, &term.expr)?;
    }
    Ok(so_far)
}

/// What a term means: the expression, or its negative where the term is subtracted.
#[cycle(evaluate)]
fn signed<S: CellStore<GameFacts<CgBoards>>>(
    alloc: Global,
    work: &mut Work<CgBoards, S>,
    subtracted: bool,
    expr: &Expr,
) -> Result<Handle, NoValue>
    ensures { Finds (work_state S.state work.old) (work_state S.state work.new) (fault_in (tree_of expr.now))
        (term_part work.old.limit subtracted (tree_of expr.now))
        (signed subtracted (meaning (tree_of expr.now))) result }
{
    let value = evaluate(alloc, work, expr)?;
    if subtracted {
        widen(negative(alloc, work, value))
    } else {
        Ok(value)
    }
}

/// The sum of the game and a term.
#[cycle(evaluate)]
fn added<S: CellStore<GameFacts<CgBoards>>>(
    alloc: Global,
    work: &mut Work<CgBoards, S>,
    so_far: Handle,
    subtracted: bool,
    expr: &Expr,
) -> Result<Handle, NoValue>
    requires { IsGame (work_state S.state work.old) so_far }
    ensures { Finds (work_state S.state work.old) (work_state S.state work.new) (fault_in (tree_of expr.now))
        (term_part work.old.limit subtracted (tree_of expr.now)
        ++ sum_items work.old.limit (game_at (work_state S.state work.old) so_far)
        (can (signed subtracted (meaning (tree_of expr.now)))))
        (sums.sum (game_at (work_state S.state work.old) so_far)
        (signed subtracted (meaning (tree_of expr.now)))) result }
{
    let value = signed(alloc, work, subtracted, expr)?;
    widen(sum(alloc, work, so_far, value))
}

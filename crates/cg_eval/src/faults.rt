//! Why the first ill-formed board or heap of an expression is ill-formed.
ghost use Rattle.std.specs.Prelude.{◌≡◌, IfOk};
ghost use Rattle.cg_eval.specs.Faults.{fault_in, fault_in_all, fault_in_terms, first_of_two, question_fault};
ghost use Rattle.cg_query.specs.Tree.{terms_from, trees_from};
ghost use Rattle.cg_query.specs.Trees.{question_of, terms_in, tree_of, trees_in};

use crate::boards::board_fault;
use crate::fault::GameFault;
use crate::heaps::heap_fault;
use cg_syntax::{Expr, Exprs, Query, Terms};
use std::alloc::{AllocError, Global};

/// The first fault of the two.
fn first_of_two(first: Option<GameFault>, second: Option<GameFault>) -> Option<GameFault>
    ensures { result ≡ first_of_two first second }
{
    match first {
        Some(fault) => Some(fault),
        None => second,
    }
}

/// Why the first ill-formed board or heap of the expression is so.
#[cycle(faults)]
pub fn fault_in(alloc: Global, expr: &Expr) -> Result<Option<GameFault>, AllocError>
    ensures { IfOk result (λ fault. fault ≡ fault_in (tree_of expr.now)) }
{
    match expr {
        Expr::Number { .. } => Ok(None),
        Expr::Ups { .. } => Ok(None),
        Expr::Nimber(_) => Ok(None),
        Expr::Switch { .. } => Ok(None),
        Expr::Tiny { .. } => Ok(None),
        Expr::Braces(lefts, rights) => {
            let first = fault_in_all(alloc, lefts)?;
            let second = fault_in_all(alloc, rights)?;
            Ok(first_of_two(first, second))
        }
        Expr::Negative(inner) => fault_in(alloc, inner),
        Expr::Multiple(_, inner) => fault_in(alloc, inner),
        Expr::Sum(terms) => fault_in_terms(alloc, terms),
        Expr::Game { kind, rules, board } => board_fault(alloc, *kind, rules, board),
        Expr::Octal { code, heap } => heap_fault(alloc, code, *heap),
        Expr::Name { .. } => Ok(None),
    }
}

/// Why the first ill-formed board or heap of the expressions is so.
#[cycle(faults)]
fn fault_in_all(alloc: Global, exprs: &Exprs) -> Result<Option<GameFault>, AllocError>
    ensures { IfOk result (λ fault. fault ≡ fault_in_all (trees_from (trees_in exprs.now))) }
{
    let mut found = None;
    for expr in exprs.as_slice() {
        let more = fault_in(alloc, expr)?;
        found = first_of_two(found, more);
    }
    Ok(found)
}

/// Why the first ill-formed board or heap of the terms is so.
#[cycle(faults)]
fn fault_in_terms(alloc: Global, terms: &Terms) -> Result<Option<GameFault>, AllocError>
    ensures { IfOk result (λ fault. fault ≡ fault_in_terms (terms_from (terms_in terms.now))) }
{
    let mut found = None;
    for term in terms.as_slice() {
        let more = fault_in(alloc, &term.expr)?;
        found = first_of_two(found, more);
    }
    Ok(found)
}

/// Why the first ill-formed board or heap of the two expressions is so.
fn fault_in_two(alloc: Global, first: &Expr, second: &Expr) -> Result<Option<GameFault>, AllocError>
    ensures { IfOk result (λ fault.
        fault ≡ first_of_two (fault_in (tree_of first.now)) (fault_in (tree_of second.now))) }
{
    let left = fault_in(alloc, first)?;
    let right = fault_in(alloc, second)?;
    Ok(first_of_two(left, right))
}

/// Why the first ill-formed board or heap of the question's expressions is so.
pub fn question_fault(alloc: Global, query: &Query) -> Result<Option<GameFault>, AllocError>
    ensures { IfOk result (λ fault. fault ≡ question_fault (question_of query.now)) }
{
    match query {
        Query::Value(expr) => fault_in(alloc, expr),
        Query::Compare(first, second) => fault_in_two(alloc, first, second),
        Query::Outcome(expr) => fault_in(alloc, expr),
        Query::Stops(expr) => fault_in(alloc, expr),
        Query::Mean(expr) => fault_in(alloc, expr),
        Query::Temp(expr) => fault_in(alloc, expr),
        Query::Thermo(expr) => fault_in(alloc, expr),
        Query::Proof(first, second) => fault_in_two(alloc, first, second),
        Query::Check(first, second, _) => fault_in_two(alloc, first, second),
    }
}

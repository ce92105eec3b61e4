//! How many nodes the paths of a query's trees have.
ghost use Rattle.std.specs.Prelude.{◌≡◌, ◌↔◌, ◌≤◌, ◌+◌, max, IsTrue};
ghost use Rattle.cg_query.specs.Tree.{terms_from, trees_from};
ghost use Rattle.cg_query.specs.Trees.{question_of, terms_in, tree_of, trees_in};
ghost use Rattle.cg_query.specs.Heights.{QuestionIs, height, heights, term_heights};

use crate::expr::{Expr, Exprs, Terms};
use crate::query::{Query, Subject};

/// Whether each path of the query's trees has at most 64 nodes. Such a query that some line reads as can be written.
pub fn is_low(query: &Query) -> bool
    ensures { IsTrue result ↔ QuestionIs (λ t. height t ≤ 64) (question_of query.now) }
{
    match query.subject() {
        Subject::One(expr) => is_within(64, expr),
        Subject::Two(first, second) => both_within(64, first, second),
    }
}

/// Whether each path of both expressions has at most so many nodes.
fn both_within(levels: u8, first: &Expr, second: &Expr) -> bool
    ensures { IsTrue result ↔ ((height (tree_of first.now) ≤ levels) × (height (tree_of second.now) ≤ levels)) }
{
    if is_within(levels, first) {
        is_within(levels, second)
    } else {
        false
    }
}

/// Whether each path of the expression has at most so many nodes.
#[cycle(is_within)]
fn is_within(levels: u8, expr: &Expr) -> bool
    ensures { IsTrue result ↔ (height (tree_of expr.now) ≤ levels) }
{
    if levels == 0 {
        false
    } else {
        parts_within(levels - 1, expr)
    }
}

/// Whether each path of the expression has at most so many nodes besides the expression itself.
#[cycle(is_within)]
fn parts_within(levels: u8, expr: &Expr) -> bool
    ensures { IsTrue result ↔ (height (tree_of expr.now) ≤ levels + 1) }
{
    match expr {
        Expr::Number { .. } => true,
        Expr::Ups { .. } => true,
        Expr::Nimber(_) => true,
        Expr::Switch { .. } => true,
        Expr::Tiny { .. } => true,
        Expr::Braces(lefts, rights) => sides_within(levels, lefts, rights),
        Expr::Negative(inner) => is_within(levels, inner),
        Expr::Multiple(_, inner) => is_within(levels, inner),
        Expr::Sum(terms) => terms_within(levels, terms),
        Expr::Game { .. } => true,
        Expr::Octal { .. } => true,
        Expr::Name { .. } => true,
    }
}

/// Whether each path of both sides has at most so many nodes.
#[cycle(is_within)]
fn sides_within(levels: u8, lefts: &Exprs, rights: &Exprs) -> bool
    ensures { IsTrue result ↔ (max (heights (trees_from (trees_in lefts.now))) (heights (trees_from (trees_in rights.now))) ≤ levels) }
{
    if side_within(levels, lefts) {
        side_within(levels, rights)
    } else {
        false
    }
}

/// Whether each path of the expressions has at most so many nodes.
#[cycle(is_within)]
fn side_within(levels: u8, exprs: &Exprs) -> bool
    ensures { IsTrue result ↔ (heights (trees_from (trees_in exprs.now)) ≤ levels) }
{
    for expr in exprs.as_slice() {
        if !is_within(levels, expr) {
            return false;
        }
    }
    true
}

/// Whether each path of the terms has at most so many nodes.
#[cycle(is_within)]
fn terms_within(levels: u8, terms: &Terms) -> bool
    ensures { IsTrue result ↔ (term_heights (terms_from (terms_in terms.now)) ≤ levels) }
{
    for term in terms.as_slice() {
        if !is_within(levels, &term.expr) {
            return false;
        }
    }
    true
}

//! Estimates of the cost of each line, so that several workers begin with the most expensive ones.
ghost use Rattle.std.specs.Prelude.{◌≡◌, IfOk, length};

use cg_syntax::{Asked, Expr, SessionLine, Subject};
use std::alloc::{AllocError, Global};

/// The weight of a board besides its bytes: more than a line without boards can have.
const BOARD: u64 = 1 << 20;

/// The greatest weight of ups, of a nimber or of a heap.
const MOST_COUNTED: u128 = 1024;

/// The weight of each line. For one worker all are 0, so lines keep their order.
pub fn weights_of(
    alloc: Global,
    lines: &[SessionLine],
    workers: u64,
) -> Result<Vec<u64>, AllocError>
    ensures { IfOk result (λ weights. length weights.items ≡ length lines.now) }
{
    let mut weights = Vec::with_capacity(alloc, lines.len())?;
    for line in lines {
        weights.push(if workers > 1 {
            line_weight(&line.asked)
        } else {
            0
        })?;
    }
    Ok(weights)
}

fn line_weight(asked: &Asked) -> u64 {
    let Asked::Query(query) = asked else {
        return 0;
    };
    match query.subject() {
        Subject::One(expr) => weight(expr),
        Subject::Two(first, second) => weight(first).saturating_add(weight(second)),
    }
}

fn weight(expr: &Expr) -> u64 {
    let Expr::Sum(terms) = expr else {
        return term_weight(expr);
    };
    let mut all = 0u64;
    for term in terms.as_slice() {
        all = all.saturating_add(term_weight(&term.expr));
    }
    all
}

fn term_weight(expr: &Expr) -> u64 {
    match expr {
        Expr::Game { rules, board, .. } => BOARD
            .saturating_add(rules.len() as u64)
            .saturating_add(board.len() as u64),
        Expr::Ups { count, .. } => (*count).min(MOST_COUNTED) as u64,
        Expr::Nimber(count) => (*count).min(MOST_COUNTED) as u64,
        Expr::Octal { heap, .. } => (*heap).min(MOST_COUNTED) as u64,
        _ => 1,
    }
}

//! Writing expressions: each function puts its text at the end.
ghost use Rattle.std.specs.Prelude.{◌≡◌, ◌++◌, ◌∷◌, [], cond, codes, decimal, OnOk};
ghost use Rattle.cg_query.specs.Tree.{terms_from, trees_from};
ghost use Rattle.cg_query.specs.Trees.{terms_in, terms_of, tree_of, trees_in, trees_of};
ghost use Rattle.cg_grammar.specs.Written.{enclosed_text, is_braces, more_terms};
ghost use Rattle.cg_grammar.specs.Written.{more_texts, terms_text, text_of, texts_of};

use crate::write_tokens::{
    push_after, push_count, push_game, push_name, push_number, push_octal, push_switch, push_tiny,
    push_ups,
};
use cg_query::{Expr, Exprs, Term, Terms};
use std::alloc::{AllocError, Global};

/// An expression, alone or between brackets.
#[cycle(push_expr)]
pub fn push_expr(alloc: Global, text: &mut Vec<u8>, expr: &Expr) -> Result<(), AllocError>
    ensures { OnOk result (text.new.items ≡ text.old.items ++ text_of (tree_of expr.now)) }
{
    match expr {
        Expr::Number { negative, num, den } => push_number(alloc, text, *negative, *num, *den),
        Expr::Ups { down, count } => push_ups(alloc, text, *down, *count),
        Expr::Nimber(count) => push_after(alloc, text, b'*', *count),
        Expr::Switch { num, den } => push_switch(alloc, text, *num, *den),
        Expr::Tiny { miny, num, den } => push_tiny(alloc, text, *miny, *num, *den),
        Expr::Braces(lefts, rights) => push_braces(alloc, text, lefts, rights),
        Expr::Negative(inner) => push_negative(alloc, text, inner),
        Expr::Multiple(count, inner) => push_multiple(alloc, text, *count, inner),
        Expr::Sum(terms) => push_sum(alloc, text, terms),
        Expr::Game { kind, rules, board } => push_game(text, *kind, rules, board),
        Expr::Octal { code, heap } => push_octal(alloc, text, code, *heap),
        Expr::Name { text: name, .. } => push_name(text, name),
    }
}

#[cycle(push_expr)]
fn push_negative(alloc: Global, text: &mut Vec<u8>, inner: &Expr) -> Result<(), AllocError>
    ensures { OnOk result (text.new.items ≡ text.old.items
        ++ (45 ∷ enclosed_text (is_braces (tree_of inner.now)) (text_of (tree_of inner.now)))) }
{
    text.push(b'-')?;
    push_operand(alloc, text, inner)
}

#[cycle(push_expr)]
fn push_multiple(
    alloc: Global,
    text: &mut Vec<u8>,
    count: u128,
    inner: &Expr,
) -> Result<(), AllocError>
    ensures { OnOk result (text.new.items ≡ text.old.items
        ++ (decimal count ++ (46 ∷ enclosed_text (is_braces (tree_of inner.now)) (text_of (tree_of inner.now))))) }
{
    push_count(alloc, text, count)?;
    text.push(b'.')?;
    push_operand(alloc, text, inner)
}

/// An operand: braces as they are, and any other between parentheses.
#[cycle(push_expr)]
fn push_operand(alloc: Global, text: &mut Vec<u8>, expr: &Expr) -> Result<(), AllocError>
    ensures { OnOk result (text.new.items ≡ text.old.items
        ++ enclosed_text (is_braces (tree_of expr.now)) (text_of (tree_of expr.now))) }
{
    if are_braces(expr) {
        push_expr(alloc, text, expr)
    } else {
        push_enclosed(alloc, text, expr)
    }
}

#[cycle(push_expr)]
fn push_enclosed(alloc: Global, text: &mut Vec<u8>, expr: &Expr) -> Result<(), AllocError>
    ensures { OnOk result (text.new.items ≡ text.old.items ++ (40 ∷ (text_of (tree_of expr.now) ++ (41 ∷ [])))) }
{
    text.push(b'(')?;
    push_expr(alloc, text, expr)?;
    text.push(b')')?;
    Ok(())
}

fn are_braces(expr: &Expr) -> bool
    ensures { result ≡ is_braces (tree_of expr.now) }
{
    match expr {
        Expr::Number { .. } => false,
        Expr::Ups { .. } => false,
        Expr::Nimber(_) => false,
        Expr::Switch { .. } => false,
        Expr::Tiny { .. } => false,
        Expr::Braces(_, _) => true,
        Expr::Negative(_) => false,
        Expr::Multiple(_, _) => false,
        Expr::Sum(_) => false,
        Expr::Game { .. } => false,
        Expr::Octal { .. } => false,
        Expr::Name { .. } => false,
    }
}

/// Braces, with one bar.
#[cycle(push_expr)]
fn push_braces(
    alloc: Global,
    text: &mut Vec<u8>,
    lefts: &Exprs,
    rights: &Exprs,
) -> Result<(), AllocError>
    ensures { OnOk result (text.new.items ≡ text.old.items
        ++ (123 ∷ (texts_of (trees_from (trees_in lefts.now)) ++ (codes "| "
        ++ (texts_of (trees_from (trees_in rights.now)) ++ (125 ∷ [])))))) }
{
    text.push(b'{')?;
    push_side(alloc, text, lefts)?;
    text.extend_from_slice(b"| ")?;
    push_side(alloc, text, rights)?;
    text.push(b'}')?;
    Ok(())
}

/// Expressions, with commas between them.
#[cycle(push_expr)]
fn push_side(alloc: Global, text: &mut Vec<u8>, exprs: &Exprs) -> Result<(), AllocError>
    ensures { OnOk result (text.new.items ≡ text.old.items ++ texts_of (trees_from (trees_in exprs.now))) }
{
    match exprs.as_slice().split_first() {
        None => Ok(()),
        Some((first, others)) => {
            push_expr(alloc, text, first)?;
            push_more(alloc, text, others)
        }
    }
}

/// Expressions, each behind a comma.
#[cycle(push_expr)]
fn push_more(alloc: Global, text: &mut Vec<u8>, exprs: &[Expr]) -> Result<(), AllocError>
    ensures { OnOk result (text.new.items ≡ text.old.items ++ more_texts (trees_from (trees_of exprs.now))) }
{
    for expr in exprs {
        text.push(b',')?;
        push_expr(alloc, text, expr)?;
    }
    Ok(())
}

/// The terms of a sum, the first one without its sign.
#[cycle(push_expr)]
fn push_sum(alloc: Global, text: &mut Vec<u8>, terms: &Terms) -> Result<(), AllocError>
    ensures { OnOk result (text.new.items ≡ text.old.items ++ terms_text (terms_from (terms_in terms.now))) }
{
    match terms.as_slice().split_first() {
        None => Ok(()),
        Some((first, others)) => {
            push_operand(alloc, text, &first.expr)?;
            push_terms(alloc, text, others)
        }
    }
}

/// Terms, each behind its sign.
#[cycle(push_expr)]
fn push_terms(alloc: Global, text: &mut Vec<u8>, terms: &[Term]) -> Result<(), AllocError>
    ensures { OnOk result (text.new.items ≡ text.old.items ++ more_terms (terms_from (terms_of terms.now))) }
{
    for term in terms {
        text.push(sign(term.minus))?;
        push_operand(alloc, text, &term.expr)?;
    }
    Ok(())
}

/// The byte of a sign.
fn sign(minus: bool) -> u8
    ensures { result ≡ cond minus 45 43 }
{
    if minus { b'-' } else { b'+' }
}

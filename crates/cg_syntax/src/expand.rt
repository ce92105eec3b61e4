//! Expressions in which each use of a name is replaced.
ghost use Rattle.std.specs.Prelude.{◌≡◌, IfOk, map};
ghost use Rattle.cg_syntax.specs.Bound.{IsSound, bindings_in};
ghost use Rattle.cg_syntax.specs.Naming.{expanded, or_use, bound_to};
ghost use Rattle.cg_query.specs.Trees.{terms_in, tree_of, trees_in};

use crate::sheet::Sheet;
use cg_query::{Expr, Exprs, Term, Terms, Text};
use std::alloc::{AllocError, Global};

/// The same text.
pub fn copy_text(alloc: Global, text: &Text) -> Result<Text, AllocError>
    ensures { IfOk result (λ copy. copy ≡ text.now) }
{
    Ok(Text::of(text.as_slice().to_vec(alloc)?))
}

/// The expression with each use of a name replaced by what the sheet binds it to.
#[cycle(expand)]
pub fn expand(alloc: Global, sheet: &Sheet, expr: &Expr) -> Result<Expr, AllocError>
    requires { IsSound sheet.now }
    ensures { IfOk result (λ e. tree_of e ≡ expanded (bindings_in sheet.now) (tree_of expr.now)) }
{
    match expr {
        Expr::Number { negative, num, den } => Ok(Expr::Number {
            negative: *negative,
            num: *num,
            den: *den,
        }),
        Expr::Ups { down, count } => Ok(Expr::Ups {
            down: *down,
            count: *count,
        }),
        Expr::Nimber(count) => Ok(Expr::Nimber(*count)),
        Expr::Switch { num, den } => Ok(Expr::Switch {
            num: *num,
            den: *den,
        }),
        Expr::Tiny { miny, num, den } => Ok(Expr::Tiny {
            miny: *miny,
            num: *num,
            den: *den,
        }),
        Expr::Braces(lefts, rights) => {
            let lefts = expand_side(alloc, sheet, lefts)?;
            let rights = expand_side(alloc, sheet, rights)?;
            Ok(Expr::Braces(lefts, rights))
        }
        Expr::Negative(inner) => {
            let inner = expand(alloc, sheet, inner)?;
            Ok(Expr::Negative(Box::new(alloc, inner)?))
        }
        Expr::Multiple(count, inner) => {
            let inner = expand(alloc, sheet, inner)?;
            Ok(Expr::Multiple(*count, Box::new(alloc, inner)?))
        }
        Expr::Sum(terms) => Ok(Expr::Sum(expand_terms(alloc, sheet, terms)?)),
        Expr::Game { kind, rules, board } => Ok(Expr::Game {
            kind: *kind,
            rules: copy_text(alloc, rules)?,
            board: copy_text(alloc, board)?,
        }),
        Expr::Octal { code, heap } => Ok(Expr::Octal {
            code: copy_text(alloc, code)?,
            heap: *heap,
        }),
        Expr::Name { text, column } => expand_use(alloc, sheet, text, *column),
    }
}

/// The same expression: with no name bound, each use stays.
#[cycle(expand)]
fn copy(alloc: Global, expr: &Expr) -> Result<Expr, AllocError>
    ensures { IfOk result (λ e. tree_of e ≡ tree_of expr.now) }
{
    expand(alloc, &Sheet::new(alloc), expr)
}

/// What stands in the place of a use.
#[cycle(expand)]
fn expand_use(alloc: Global, sheet: &Sheet, name: &Text, column: u64) -> Result<Expr, AllocError>
    requires { IsSound sheet.now }
    ensures { IfOk result (λ e. tree_of e ≡ or_use name.now column (bound_to (bindings_in sheet.now) name.now)) }
{
    match sheet.get(name.as_slice()) {
        Some((expr, _)) => copy(alloc, expr),
        None => Ok(Expr::Name {
            text: copy_text(alloc, name)?,
            column,
        }),
    }
}

/// A side with each use replaced.
#[cycle(expand)]
fn expand_side(alloc: Global, sheet: &Sheet, exprs: &Exprs) -> Result<Exprs, AllocError>
    requires { IsSound sheet.now }
    ensures { IfOk result (λ es. trees_in es ≡ map (expanded (bindings_in sheet.now)) (trees_in exprs.now)) }
{
    let mut items = Vec::new(alloc);
    for expr in exprs.as_slice() {
        items.push(expand(alloc, sheet, expr)?)?;
    }
    Ok(Exprs::of(items))
}

/// The terms of a sum with each use replaced.
#[cycle(expand)]
fn expand_terms(alloc: Global, sheet: &Sheet, terms: &Terms) -> Result<Terms, AllocError>
    requires { IsSound sheet.now }
    ensures { IfOk result (λ ts. terms_in ts ≡ map (λ t. (t.0, expanded (bindings_in sheet.now) t.1)) (terms_in terms.now)) }
{
    let mut items = Vec::new(alloc);
    for term in terms.as_slice() {
        let expr = expand(alloc, sheet, &term.expr)?;
        items.push(Term {
            minus: term.minus,
            expr,
        })?;
    }
    Ok(Terms::of(items))
}

//! How large expressions are once their names are replaced, before any is.
ghost use Rattle.std.specs.Prelude.{◌≡◌, ◌∷◌, ◌++◌, ◌≤◌, ◌+◌, ◌||◌, [], false, map, max, min, ℕ};
ghost use Rattle.cg_syntax.specs.Bound.{IsMeasured, IsSound, bindings_in};
ghost use Rattle.cg_query.specs.Tree.{used};
ghost use Rattle.cg_query.specs.Trees.{terms_in, tree_of, trees_in};

use crate::sheet::Sheet;
use cg_query::{Expr, Exprs, Terms, Text};

/// How large an expanded expression is, counted as far as it matters.
#[derive(Clone, Copy, Debug, PartialEq, Eq)]
pub struct Size {
    /// The nodes of its tree, and one more for each byte of a board's texts; 4,097 stands for any greater number.
    pub parts: u64,
    /// The most nodes on one path; 1,025 stands for any greater number.
    pub levels: u64,
    /// Whether a name was used.
    pub has_use: bool,
}

/// How far parts are counted.
const PARTS_COUNTED: u64 = 4097;

/// How far levels are counted.
const LEVELS_COUNTED: u64 = 1025;

/// No node.
const NOTHING: Size = Size {
    parts: 0,
    levels: 0,
    has_use: false,
};

/// Two sizes beside each other.
pub fn beside(first: Size, second: Size) -> Size
    ensures parts { result.parts ≡ min 4097 (first.parts + second.parts) }
    ensures levels { result.levels ≡ max first.levels second.levels }
    ensures has_use { result.has_use ≡ (first.has_use || second.has_use) }
{
    Size {
        parts: first.parts.saturating_add(second.parts).min(PARTS_COUNTED),
        levels: first.levels.max(second.levels),
        has_use: first.has_use || second.has_use,
    }
}

/// A size below one node more.
fn below(inner: Size) -> Size
    ensures parts { result.parts ≡ min 4097 (inner.parts + 1) }
    ensures levels { result.levels ≡ min 1025 (inner.levels + 1) }
    ensures has_use { result.has_use ≡ inner.has_use }
{
    Size {
        parts: inner.parts.saturating_add(1).min(PARTS_COUNTED),
        levels: inner.levels.saturating_add(1).min(LEVELS_COUNTED),
        has_use: inner.has_use,
    }
}

/// The size of a node with nothing below it.
fn leaf() -> Size
    ensures { result ≡ record { parts = 1; levels = 1; has_use = false } }
{
    Size {
        parts: 1,
        levels: 1,
        has_use: false,
    }
}

/// The size of an expression whose names are bound by these bindings, or the column of its first use of an unknown
/// name.
#[cycle(measured)]
pub fn measured(sheet: &Sheet, expr: &Expr) -> Result<Size, u64>
    requires { IsSound sheet.now }
    ensures { IsMeasured (bindings_in sheet.now) (tree_of expr.now ∷ []) result }
{
    match expr {
        Expr::Braces(lefts, rights) => Ok(below(sides_size(sheet, lefts, rights)?)),
        Expr::Negative(inner) => Ok(below(measured(sheet, inner)?)),
        Expr::Multiple(_, inner) => Ok(below(measured(sheet, inner)?)),
        Expr::Sum(terms) => Ok(below(terms_size(sheet, terms)?)),
        Expr::Game { rules, board, .. } => Ok(board_size(rules.len() as u64, board.len() as u64)),
        Expr::Name { text, column } => use_size(sheet, text, *column),
        Expr::Number { .. } => Ok(leaf()),
        Expr::Ups { .. } => Ok(leaf()),
        Expr::Nimber(_) => Ok(leaf()),
        Expr::Switch { .. } => Ok(leaf()),
        Expr::Tiny { .. } => Ok(leaf()),
        Expr::Octal { .. } => Ok(leaf()),
    }
}

/// The size of a board whose texts are so long.
fn board_size(rules: u64, board: u64) -> Size
    ensures parts { result.parts ≡ min 4097 (rules + board + 1) }
    ensures levels { result.levels ≡ 1 }
    ensures has_use { result.has_use ≡ false }
{
    Size {
        parts: rules
            .saturating_add(board)
            .saturating_add(1)
            .min(PARTS_COUNTED),
        levels: 1,
        has_use: false,
    }
}

/// The size of what a name stands for.
fn use_size(sheet: &Sheet, name: &Text, column: u64) -> Result<Size, u64>
    requires { IsSound sheet.now }
    ensures { IsMeasured (bindings_in sheet.now) (used name.now column ∷ []) result }
{
    match sheet.get(name.as_slice()) {
        None => Err(column),
        Some((_, size)) => Ok(Size {
            parts: size.parts,
            levels: size.levels,
            has_use: true,
        }),
    }
}

/// The sizes of the expressions of both sides beside each other.
#[cycle(measured)]
fn sides_size(sheet: &Sheet, lefts: &Exprs, rights: &Exprs) -> Result<Size, u64>
    requires { IsSound sheet.now }
    ensures { IsMeasured (bindings_in sheet.now) (trees_in lefts.now ++ trees_in rights.now) result }
{
    let left = side_size(sheet, lefts)?;
    let right = side_size(sheet, rights)?;
    Ok(beside(left, right))
}

/// The sizes of the expressions of a side beside each other.
#[cycle(measured)]
fn side_size(sheet: &Sheet, exprs: &Exprs) -> Result<Size, u64>
    requires { IsSound sheet.now }
    ensures { IsMeasured (bindings_in sheet.now) (trees_in exprs.now) result }
{
    let mut all = NOTHING;
    for expr in exprs.as_slice() {
        all = beside(all, measured(sheet, expr)?);
    }
    Ok(all)
}

/// The sizes of the terms of a sum beside each other.
#[cycle(measured)]
fn terms_size(sheet: &Sheet, terms: &Terms) -> Result<Size, u64>
    requires { IsSound sheet.now }
    ensures { IsMeasured (bindings_in sheet.now) (map (λ t. t.1) (terms_in terms.now)) result }
{
    let mut all = NOTHING;
    for term in terms.as_slice() {
        all = beside(all, measured(sheet, &term.expr)?);
    }
    Ok(all)
}

//! Writing questions.
ghost use Rattle.std.specs.Prelude.{◌≡◌, ◌≤◌, ◌++◌, List, ℕ, codes, IfOk, OnOk, string_bytes};
ghost use Rattle.cg_grammar.specs.Lines.{Reads};
ghost use Rattle.cg_query.specs.Trees.{question_of, tree_of};
ghost use Rattle.cg_grammar.specs.Written.{asked_text, quoted, text_of};
ghost use Rattle.cg_query.specs.Heights.{QuestionIs, height};

use crate::write_expr::push_expr;
use crate::write_tokens::push_quoted;
use cg_query::{Expr, Query, Text};
use std::alloc::{AllocError, Global};

/// A line that reads as the query. It takes a query that some line reads as, and whose trees have at most 64 nodes on
/// each path. The only error is out of memory.
pub fn write_query(alloc: Global, query: &Query) -> Result<String, AllocError>
    requires read { (line : List ℕ) × Reads line (question_of query.now) }
    requires low { QuestionIs (λ t. height t ≤ 64) (question_of query.now) }
    ensures reads { IfOk result (λ text. Reads (string_bytes text) (question_of query.now)) }
    ensures written { IfOk result (λ text. string_bytes text ≡ asked_text (question_of query.now)) }
{
    let mut text = Vec::new(alloc);
    push_query(alloc, &mut text, query)?;
    Ok(String::from_utf8(text).unwrap())
}

fn push_query(alloc: Global, text: &mut Vec<u8>, query: &Query) -> Result<(), AllocError>
    ensures { OnOk result (text.new.items ≡ text.old.items ++ asked_text (question_of query.now)) }
{
    match query {
        Query::Value(expr) => push_asked(alloc, text, b"value ", expr),
        Query::Compare(first, second) => push_both(alloc, text, b"compare ", first, second),
        Query::Outcome(expr) => push_asked(alloc, text, b"outcome ", expr),
        Query::Stops(expr) => push_asked(alloc, text, b"stops ", expr),
        Query::Mean(expr) => push_asked(alloc, text, b"mean ", expr),
        Query::Temp(expr) => push_asked(alloc, text, b"temp ", expr),
        Query::Thermo(expr) => push_asked(alloc, text, b"thermo ", expr),
        Query::Proof(first, second) => push_both(alloc, text, b"proof ", first, second),
        Query::Check(first, second, proof) => push_check(alloc, text, first, second, proof),
    }
}

/// Puts the words, and behind them the expression, at the end.
fn push_asked(
    alloc: Global,
    text: &mut Vec<u8>,
    words: &[u8],
    expr: &Expr,
) -> Result<(), AllocError>
    ensures { OnOk result (text.new.items ≡ text.old.items ++ (words.now ++ text_of (tree_of expr.now))) }
{
    text.extend_from_slice(words)?;
    push_expr(alloc, text, expr)
}

fn push_both(
    alloc: Global,
    text: &mut Vec<u8>,
    words: &[u8],
    first: &Expr,
    second: &Expr,
) -> Result<(), AllocError>
    ensures { OnOk result (text.new.items ≡ text.old.items ++ (words.now
        ++ (text_of (tree_of first.now) ++ (codes ";" ++ text_of (tree_of second.now))))) }
{
    push_asked(alloc, text, words, first)?;
    push_asked(alloc, text, b";", second)
}

/// Puts the question whether the text proves that the first is at least the second at the end.
fn push_check(
    alloc: Global,
    text: &mut Vec<u8>,
    first: &Expr,
    second: &Expr,
    proof: &Text,
) -> Result<(), AllocError>
    ensures { OnOk result (text.new.items ≡ text.old.items ++ (codes "check "
        ++ ((text_of (tree_of first.now) ++ (codes ";" ++ text_of (tree_of second.now)))
        ++ (codes ";" ++ quoted proof.now)))) }
{
    push_both(alloc, text, b"check ", first, second)?;
    text.push(b';')?;
    push_quoted(text, proof)
}

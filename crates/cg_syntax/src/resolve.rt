//! What the lines of a session ask, one after the other.
ghost use Rattle.std.specs.Prelude.{◌≡◌, ◌∷◌, ◌<◌, ◌≤◌, ◌||◌, IfOk, MatchOption, OnOk, [], length, ltb, true};
ghost use Rattle.cg_syntax.specs.Bound.{IsMeasured, IsSound, bindings_in};
ghost use Rattle.cg_syntax.specs.Naming.{question_expanded};
ghost use Rattle.cg_syntax.specs.Session.{AreLines};
ghost use Rattle.cg_syntax.specs.SessionLines.{answered_from, is_answered, lines_of};
ghost use Rattle.cg_syntax.specs.Puts.{Puts, PutsStatement};
ghost use Rattle.cg_syntax.specs.SessionViews.{lines_in};
ghost use Rattle.cg_query.specs.Heights.{trees_of_question};
ghost use Rattle.cg_query.specs.Tree.{asks, defines};
ghost use Rattle.cg_query.specs.Trees.{question_of, tree_of};
ghost use Rattle.cg_query.specs.declared.format.Format.TheVariants as formats;

use crate::expand::{copy_text, expand};
use crate::session::{Asked, SessionLines};
use crate::session_lines::{first_line, is_first_answered};
use crate::sheet::Sheet;
use crate::sizes::{Size, beside, measured};
use cg_query::{Expr, Format, Line, Query, Statement, Subject, SyntaxFault, Text};
use cg_reader::{read_line, read_statement};
use std::alloc::{AllocError, Global};

/// How many parts expanded expressions may have together.
const MOST_PARTS: u64 = 4096;

/// How many nodes a path of an expanded expression may have.
const MOST_LEVELS: u64 = 1024;

/// What the lines of this text ask in this format, where the first of them has this number, unless more than so many
/// get an answer. Before the first line no name is bound.
pub fn read_lines(
    alloc: Global,
    format: Format,
    first: u64,
    text: &[u8],
    most: u64,
) -> Result<Option<SessionLines>, AllocError>
    requires { first ≤ 2 }
    ensures { IfOk result (λ o. MatchOption o (most < length (answered_from first (lines_of text.now)))
        (λ ls. AreLines format [] (answered_from first (lines_of text.now)) (lines_in ls) × (length ls ≤ most))) }
{
    let mut sheet = Sheet::new(alloc);
    let mut number = first;
    let mut rest = text;
    while !rest.is_empty() {
        let (line, behind) = first_line(rest);
        if is_first_answered(rest, line) {
            if sheet.len() as u64 >= most {
                return Ok(None);
            }
            put_line(alloc, format, &mut sheet, number, line)?;
        }
        number += 1;
        rest = behind;
    }
    Ok(Some(sheet.into_lines()))
}

/// Appends to the sheet what a line with an answer asks.
fn put_line(
    alloc: Global,
    format: Format,
    sheet: &mut Sheet,
    number: u64,
    line: &[u8],
) -> Result<(), AllocError>
    requires answered { is_answered line.now ≡ true }
    requires sound { IsSound sheet.old }
    ensures puts { OnOk result (Puts format number line.now sheet.old sheet.new) }
    ensures sound { OnOk result (IsSound sheet.new) }
{
    match format {
        Format::One => put_question(alloc, sheet, number, line),
        Format::Two => put_statement(alloc, sheet, number, line),
    }
}

/// Appends what a line of format 1 asks.
fn put_question(
    alloc: Global,
    sheet: &mut Sheet,
    number: u64,
    line: &[u8],
) -> Result<(), AllocError>
    requires answered { is_answered line.now ≡ true }
    requires sound { IsSound sheet.old }
    ensures puts { OnOk result (Puts formats.One number line.now sheet.old sheet.new) }
    ensures sound { OnOk result (IsSound sheet.new) }
{
    match read_line(alloc, line) {
        Ok(Line::Ask(query)) => sheet.push(number, Asked::Query(query)),
        Ok(Line::Blank) => unreachable!(),
        Ok(Line::Comment) => unreachable!(),
        Err(SyntaxFault::Syntax(column)) => sheet.push(number, Asked::Syntax(column)),
        Err(SyntaxFault::Memory) => Err(AllocError),
    }
}

/// Appends what a line of format 2 asks, and binds its name.
fn put_statement(
    alloc: Global,
    sheet: &mut Sheet,
    number: u64,
    line: &[u8],
) -> Result<(), AllocError>
    requires { IsSound sheet.old }
    ensures puts { OnOk result (Puts formats.Two number line.now sheet.old sheet.new) }
    ensures sound { OnOk result (IsSound sheet.new) }
{
    match read_statement(alloc, line) {
        Ok(Statement::Ask(query)) => put_query(alloc, sheet, number, query),
        Ok(Statement::Define(name, expr)) => put_definition(alloc, sheet, number, name, expr),
        Err(SyntaxFault::Syntax(column)) => sheet.push(number, Asked::Syntax(column)),
        Err(SyntaxFault::Memory) => Err(AllocError),
    }
}

/// Appends what a query asks.
fn put_query(alloc: Global, sheet: &mut Sheet, number: u64, query: Query) -> Result<(), AllocError>
    requires { IsSound sheet.old }
    ensures puts { OnOk result (PutsStatement number (asks (question_of query)) sheet.old sheet.new) }
    ensures sound { OnOk result (IsSound sheet.new) }
{
    match query_size(sheet, &query) {
        Err(column) => sheet.push(number, Asked::Unknown(column)),
        Ok(size) if !size.has_use => sheet.push(number, Asked::Query(query)),
        Ok(size) if is_too_large(size) => sheet.push(number, Asked::Parts),
        Ok(_) => {
            let expanded = expanded_query(alloc, sheet, &query)?;
            sheet.push(number, Asked::Query(expanded))
        }
    }
}

/// Appends what a definition asks, and binds its name unless it is refused.
fn put_definition(
    alloc: Global,
    sheet: &mut Sheet,
    number: u64,
    name: Text,
    expr: Expr,
) -> Result<(), AllocError>
    requires { IsSound sheet.old }
    ensures puts { OnOk result (PutsStatement number (defines name (tree_of expr)) sheet.old sheet.new) }
    ensures sound { OnOk result (IsSound sheet.new) }
{
    match measured(sheet, &expr) {
        Err(column) => sheet.push(number, Asked::Unknown(column)),
        Ok(size) if !size.has_use => sheet.define(number, name, expr, size),
        Ok(size) if is_too_large(size) => sheet.push(number, Asked::Parts),
        Ok(size) => {
            let expanded = expand(alloc, sheet, &expr)?;
            sheet.define(number, name, expanded, size)
        }
    }
}

/// Whether expanded expressions of this size are too large.
fn is_too_large(size: Size) -> bool
    ensures { result ≡ (ltb 4096 size.parts || ltb 1024 size.levels) }
{
    size.parts > MOST_PARTS || size.levels > MOST_LEVELS
}

/// The size of the query's expressions, or the column of the first use of an unknown name.
fn query_size(sheet: &Sheet, query: &Query) -> Result<Size, u64>
    requires { IsSound sheet.now }
    ensures { IsMeasured (bindings_in sheet.now) (trees_of_question (question_of query.now)) result }
{
    match query.subject() {
        Subject::One(expr) => measured(sheet, expr),
        Subject::Two(first, second) => both_size(sheet, first, second),
    }
}

/// The size of two expressions.
fn both_size(sheet: &Sheet, first: &Expr, second: &Expr) -> Result<Size, u64>
    requires { IsSound sheet.now }
    ensures { IsMeasured (bindings_in sheet.now) (tree_of first.now ∷ tree_of second.now ∷ []) result }
{
    let first = measured(sheet, first)?;
    let second = measured(sheet, second)?;
    Ok(beside(first, second))
}

/// The query about expanded expressions.
fn expanded_query(alloc: Global, sheet: &Sheet, query: &Query) -> Result<Query, AllocError>
    requires { IsSound sheet.now }
    ensures { IfOk result (λ q. question_of q ≡ question_expanded (bindings_in sheet.now) (question_of query.now)) }
{
    match query {
        Query::Value(expr) => Ok(Query::Value(expand(alloc, sheet, expr)?)),
        Query::Outcome(expr) => Ok(Query::Outcome(expand(alloc, sheet, expr)?)),
        Query::Stops(expr) => Ok(Query::Stops(expand(alloc, sheet, expr)?)),
        Query::Mean(expr) => Ok(Query::Mean(expand(alloc, sheet, expr)?)),
        Query::Temp(expr) => Ok(Query::Temp(expand(alloc, sheet, expr)?)),
        Query::Thermo(expr) => Ok(Query::Thermo(expand(alloc, sheet, expr)?)),
        Query::Compare(first, second) => {
            let first = expand(alloc, sheet, first)?;
            Ok(Query::Compare(first, expand(alloc, sheet, second)?))
        }
        Query::Proof(first, second) => {
            let first = expand(alloc, sheet, first)?;
            Ok(Query::Proof(first, expand(alloc, sheet, second)?))
        }
        Query::Check(first, second, proof) => {
            let first = expand(alloc, sheet, first)?;
            let second = expand(alloc, sheet, second)?;
            Ok(Query::Check(first, second, copy_text(alloc, proof)?))
        }
    }
}

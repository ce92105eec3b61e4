//! Rows of the grammar. `line` prints the question that the line reads as, with each term in parentheses and each
//! number as a fraction, or the column at which it is refused. A backslash and two hexadecimal digits stand for a
//! byte. `cuts` cuts the line before each of its bytes: each cut has to read, or to be refused at its end.
//! `statement` has a line of format 2, `session` a session.
ghost use Rattle.std.specs.Prelude.{◌≤◌};
ghost use Rattle.cg_grammar.specs.Lines.{Reads};
ghost use Rattle.cg_query.specs.Trees.{question_of};

use cg_syntax::{
    Line, Query, SyntaxFault, is_low, read_line, read_session, read_statement, write_query,
};
use std::alloc::{AllocError, Global};

/// The value of a digit of base sixteen, and 0 for any other byte.
fn digit(byte: u8) -> u8
    ensures { result ≤ 15 }
{
    if b'0' <= byte && byte <= b'9' {
        byte - b'0'
    } else if b'A' <= byte && byte <= b'F' {
        byte - b'A' + 10
    } else {
        0
    }
}

fn bytes_of(alloc: Global, row: &[u8]) -> Result<Vec<u8>, AllocError> {
    let mut bytes = Vec::new(alloc);
    let mut rest = row;
    while let Some((first, after)) = rest.split_first() {
        if *first == b'\\' && after.len() >= 2 {
            bytes.push(digit(after[0]) * 16 + digit(after[1]))?;
            rest = &after[2..];
        } else {
            bytes.push(*first)?;
            rest = after;
        }
    }
    Ok(bytes)
}

/// The column of the refusal, which wasn't out of memory.
fn refusal(alloc: Global, fault: SyntaxFault) -> Result<String, AllocError> {
    match fault {
        SyntaxFault::Syntax(column) => format!(in alloc; "column {column}"),
        SyntaxFault::Memory => Err(AllocError),
    }
}

/// The query in writing, if the line reads as it.
fn asked_text(alloc: Global, line: &[u8], query: &Query) -> Result<String, AllocError>
    requires { Reads line.now (question_of query.now) }
{
    if is_low(query) {
        write_query(alloc, query)
    } else {
        String::from_str(alloc, "too high")
    }
}

fn line_text(alloc: Global, line: &[u8]) -> Result<String, AllocError> {
    match read_line(alloc, line) {
        Ok(Line::Ask(query)) => asked_text(alloc, line, &query),
        Ok(Line::Blank) => String::from_str(alloc, "blank"),
        Ok(Line::Comment) => String::from_str(alloc, "comment"),
        Err(fault) => refusal(alloc, fault),
    }
}

/// Whether the line of format 2 reads, or the column of its refusal.
fn stated_text(alloc: Global, line: &[u8]) -> Result<String, AllocError> {
    match read_statement(alloc, line) {
        Ok(_) => String::from_str(alloc, "reads"),
        Err(fault) => refusal(alloc, fault),
    }
}

/// The first cut that neither reads nor is refused where it ends; else what the line itself reads as.
fn cuts_text(alloc: Global, line: &[u8]) -> Result<String, AllocError> {
    for end in 0..line.len() {
        let cut = line_text(alloc, &line[..end])?;
        let wanted = refusal(alloc, SyntaxFault::Syntax(end as u64 + 1))?;
        if cut.starts_with("column") && cut.as_str() != wanted.as_str() {
            return format!(in alloc; "cut {end}: {cut}");
        }
    }
    line_text(alloc, line)
}

pub(crate) fn answer(alloc: Global, call: &str, row: &[u8]) -> Result<String, AllocError> {
    let bytes = bytes_of(alloc, row)?;
    let line = bytes.as_slice();
    match call {
        "cuts" => cuts_text(alloc, line),
        "statement" => stated_text(alloc, line),
        "session" => {
            let session = read_session(alloc, line)?;
            format!(in alloc; "format {}, {} lines", session.format, session.lines.len())
        }
        _ => line_text(alloc, line),
    }
}

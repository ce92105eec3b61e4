//! Sessions of either format.
ghost use Rattle.std.specs.Prelude.{◌≡◌, ◌<◌, ◌≤◌, ◌↔◌, IfOk, IsTrue, MatchOption, [], length};
ghost use Rattle.cg_syntax.specs.Session.{AreClosedLines, IsSession, answered_lines, format_number, format_of};
ghost use Rattle.cg_syntax.specs.SessionViews.{IsRead, line_of, lines_in};

use crate::marks::behind_mark;
use crate::resolve::read_lines;
use cg_query::{Format, Query};
use std::alloc::{AllocError, Global};
use std::marker::Model;

/// What a session says.
#[derive(Debug, Drop)]
pub struct Session {
    /// The format, 1 or 2.
    pub format: u8,
    /// The lines that get an answer.
    pub lines: SessionLines,
}

/// Lines that get an answer, in order. Contracts see it as the list of its lines; `lines_in` tells of each its number
/// and what is made of it.
#[derive(Debug, Drop)]
pub struct SessionLines {
    lines: Vec<SessionLine>,
}

impl Model for SessionLines {
    ghost use Rattle.std.specs.Prelude.{List};
    ghost use Rattle.std.specs.Coded.{codes};
    ghost use Rattle.cg_query.specs.contracts.expr.Expr as expr;
    ghost use Rattle.cg_syntax.specs.declared.session.SessionLine.{SessionLine};

    ghost Value = { List SessionLine };

    ghost view = { λ s. s.lines.items };

    ghost coded = { Prim.hlevel (codes, expr.the_row.coded) };
}

impl SessionLines {
    /// The list of these lines.
    pub fn of(lines: Vec<SessionLine>) -> SessionLines
        ensures { result ≡ lines.items }
    {
        SessionLines { lines }
    }

    /// How many lines there are.
    pub fn len(&self) -> usize
        ensures { result ≡ length self.now }
    {
        self.lines.len()
    }

    /// Whether there is no line.
    pub fn is_empty(&self) -> bool
        ensures { IsTrue result ↔ (self.now ≡ []) }
    {
        self.lines.is_empty()
    }

    /// The lines in order.
    pub fn as_slice(&self) -> &[SessionLine]
        ensures { result.now ≡ self.now }
    {
        &self.lines
    }

    /// The lines in a vector, in order.
    pub fn into_vec(self) -> Vec<SessionLine>
        ensures { result.items ≡ self }
    {
        let SessionLines { lines } = self;
        lines
    }
}

/// A line that gets an answer.
#[derive(Debug, Drop)]
pub struct SessionLine {
    /// Its number; all lines are counted, from 1.
    pub number: u64,
    /// What it asks.
    pub asked: Asked,
}

/// What a line asks, or why it is refused.
#[derive(Debug, Drop)]
pub enum Asked {
    /// A closed query: it has no names. A definition asks for the value of its expression.
    Query(Query),
    /// The line isn't in the grammar of its format. The column counts bytes from 1.
    Syntax(u64),
    /// At this column stands the first use of a name that no earlier line binds.
    Unknown(u64),
    /// A name is used, and the expanded expressions have more than 4,096 parts together, or one has more than 1,024
    /// levels.
    Parts,
}

/// The lines of the text that get an answer, each with its number and what it asks.
///
/// A session has format 2 where its first line, without the blanks at both ends, is `cg 2`; then that line gets no
/// answer, a line may define a name, and each use of a name is replaced by what the last earlier line bound to it. Each
/// line is refused by the first of `Syntax`, `Unknown` and `Parts` that applies; a definition that is refused binds
/// nothing. The one fault is out of memory.
pub fn read_session(alloc: Global, text: &[u8]) -> Result<Session, AllocError>
    ensures format { IfOk result (λ s. s.format ≡ format_number (format_of text.now)) }
    ensures lines { IfOk result (λ s. IsSession text.now (lines_in s.lines)) }
    ensures closed { IfOk result (λ s. AreClosedLines (lines_in s.lines)) }
{
    match read_session_within(alloc, text, text.len() as u64)? {
        Some(session) => Ok(session),
        None => unreachable!(),
    }
}

/// The same where at most so many lines get an answer. Where more do, there is no session, and none of the lines behind
/// the first so many is read.
pub fn read_session_within(
    alloc: Global,
    text: &[u8],
    most: u64,
) -> Result<Option<Session>, AllocError>
    ensures { IfOk result (λ o. MatchOption o (most < length (answered_lines text.now))
        (λ s. IsRead text.now s × (length (answered_lines text.now) ≤ most))) }
{
    match behind_mark(text) {
        None => {
            let Some(lines) = read_lines(alloc, Format::One, 1, text, most)? else {
                return Ok(None);
            };
            Ok(Some(Session { format: 1, lines }))
        }
        Some(rest) => {
            let Some(lines) = read_lines(alloc, Format::Two, 2, rest, most)? else {
                return Ok(None);
            };
            Ok(Some(Session { format: 2, lines }))
        }
    }
}

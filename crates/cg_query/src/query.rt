//! What a line of a session is, and why one isn't read.
ghost use Rattle.std.specs.Prelude.{◌≡◌};
ghost use Rattle.cg_query.specs.Heights.{trees_of_question};
ghost use Rattle.cg_query.specs.Trees.{question_of, trees_about};

use crate::expr::Expr;
use crate::text::Text;
use thiserror::Error;

/// A question about one expression or about two. `Check` has the text of a proof beside them.
#[derive(Debug, Drop)]
pub enum Query {
    /// What is the value of this expression?
    Value(Expr),
    /// How does the first compare with the second?
    Compare(Expr, Expr),
    /// Who wins?
    Outcome(Expr),
    /// What are the stops?
    Stops(Expr),
    /// What is the mean value?
    Mean(Expr),
    /// What is the temperature?
    Temp(Expr),
    /// What is the thermograph?
    Thermo(Expr),
    /// Is the first at least the second, and why?
    Proof(Expr, Expr),
    /// Does the text prove that the first is at least the second?
    Check(Expr, Expr, Text),
}

/// The expressions that a query asks about.
#[derive(Clone, Copy)]
pub enum Subject<'a> {
    /// One.
    One(&'a Expr),
    /// Two, in their order.
    Two(&'a Expr, &'a Expr),
}

impl Query {
    /// The expressions that the query asks about.
    pub fn subject(&self) -> Subject<'_>
        ensures { trees_about result ≡ trees_of_question (question_of self.now) }
    {
        match self {
            Query::Value(expr) => Subject::One(expr),
            Query::Outcome(expr) => Subject::One(expr),
            Query::Stops(expr) => Subject::One(expr),
            Query::Mean(expr) => Subject::One(expr),
            Query::Temp(expr) => Subject::One(expr),
            Query::Thermo(expr) => Subject::One(expr),
            Query::Compare(first, second) => Subject::Two(first, second),
            Query::Proof(first, second) => Subject::Two(first, second),
            Query::Check(first, second, _) => Subject::Two(first, second),
        }
    }
}

/// What a line is.
#[derive(Debug, Drop)]
pub enum Line {
    /// Blanks alone.
    Blank,
    /// A line whose first byte that isn't a blank is `#`.
    Comment,
    /// A question.
    Ask(Query),
}

/// What a line of format 2 states.
#[derive(Debug, Drop)]
pub enum Statement {
    /// A question.
    Ask(Query),
    /// A definition of a name.
    Define(Text, Expr),
}

/// Why `read_line` or `read_statement` read nothing.
#[derive(Clone, Copy, Debug, PartialEq, Eq, Error)]
pub enum SyntaxFault {
    /// The line isn't in the grammar. The column counts bytes from 1.
    #[error("the line isn't in the grammar at column {0}")]
    Syntax(u64),
    /// There was no memory for the expressions.
    #[error("out of memory")]
    Memory,
}

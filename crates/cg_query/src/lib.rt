//! Questions as trees: what a line of a session is once it is read.
//!
//! A `Query` is a question about one expression or about two, and an `Expr` is a tree of numbers, games with signs of
//! their own, braces, negatives, multiples, sums, boards, heaps of octal games and names. Contracts see them by
//! `question_of` and `tree_of` of `specs/Trees`, as the plain trees of `specs/Tree`.
#![tactic(auto)]

mod expr;
mod format;
mod kind;
mod levels;
mod query;
mod text;

pub use expr::{Expr, Exprs, Term, Terms};
pub use format::Format;
pub use kind::GameKind;
pub use levels::is_low;
pub use query::{Line, Query, Statement, Subject, SyntaxFault};
pub use text::Text;

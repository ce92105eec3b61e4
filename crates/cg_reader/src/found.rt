//! What was read of expressions and lines.
use cg_query::{Expr, Statement};

/// An expression, and the column of the first run of bars in it that repeats an earlier one.
#[derive(Drop)]
pub struct Found {
    pub expr: Expr,
    pub fault: Option<u64>,
}

/// The expressions of a side of braces, in the order of the text.
#[derive(Drop)]
pub enum Side {
    /// No run of bars in them repeats an earlier one.
    Sound(Vec<Expr>),
    /// Each with the first fault in it, if there is one.
    Faulty(Vec<Found>),
}

/// A run of bars, with its column, and the side behind it.
#[derive(Drop)]
pub struct Row {
    pub column: u64,
    pub bars: u64,
    pub side: Side,
}

/// The rows of braces: the first, and those behind it.
#[derive(Drop)]
pub struct Rows {
    pub first: Row,
    pub more: Vec<Row>,
}

/// What a line states, and the first such column in its text.
#[derive(Drop)]
pub struct Stated {
    pub statement: Statement,
    pub fault: Option<u64>,
}

//! Writing questions: `write_query` writes a question as a line that reads as it.
#![tactic(auto)]

pub mod laws;
mod write;
mod write_expr;
mod write_tokens;

pub use write::write_query;

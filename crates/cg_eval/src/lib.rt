//! Answers of lines: a line is read, its expressions are made on a store of cells, item by item, and it is answered or
//! refused exactly as the definitions say.
//!
//! An expression makes a list of items, forms in canonical form, each of which has a cost. A line is refused at the
//! first item that is out of range, too deep or past the line's share, or where a list of items is longer than the
//! positions limit. What was made before stays in the store and serves the lines after it, but doesn't change their
//! costs.
#![tactic(auto)]

mod adder;
mod answered;
mod boards;
mod evaluate;
mod fault;
mod faults;
mod forms;
mod heaps;
pub mod laws;
mod line;
mod named;
mod pictures;
mod positions;
mod question;
mod refusals;
mod reply;
mod telling;

pub use adder::SumAdder;
pub use answered::Answered;
pub use forms::{CgBoards, may_note};
pub use line::answer;
pub use reply::{answer_query, answer_query_cached};

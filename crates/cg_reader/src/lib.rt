//! Reading lines: `read_line` tells what a line of format 1 asks, and `read_statement` what a line of format 2 asks or
//! defines, by the grammar of `cg_grammar`; or each gives the column at which the line leaves it.
//!
//! There is a function for each production, or for a few that stand in one another. It reads from the front of the
//! bytes, and gives the value that was read with what is left behind it.
#![tactic(auto)]

mod arrows;
mod bars;
mod boards;
mod braces;
mod build;
mod faults;
mod found;
mod line;
mod line_reader;
mod named;
mod names;
mod operands;
mod questions;
mod sides;
mod split;
mod statements;
mod sums;

pub use line::{read_line, read_statement};

//! What stays the same while a line is read.
use cg_query::Format;
use std::alloc::Global;

/// Where the memory for expressions comes from, the format of the line, which tells whether names are operands, and the
/// column behind the line. Its methods read the productions that may hold expressions, where `brackets` is how many
/// further brackets may be open at once.
#[derive(Clone, Copy)]
pub struct LineReader {
    pub alloc: Global,
    pub format: Format,
    pub line_end: u64,
}

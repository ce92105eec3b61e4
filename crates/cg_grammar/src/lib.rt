//! The grammar of a line, in both formats.
//!
//! `specs/Grammar` has a definition for each production, and `specs/Lines` says what a line is, and what the column of
//! a line is that isn't in the grammar. `specs/Reading` has the same productions as readers, and
//! `proofs/` that each reader finds its piece, finds no other, and stops at the first byte that no line has there.
//! `specs/Written` says how a question is written.
//!
//! There is no code here: `laws` tells what holds for all lines.
#![tactic(auto)]

pub mod laws;

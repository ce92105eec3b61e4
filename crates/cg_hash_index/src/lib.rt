//! A hash index: entries that are looked for by a number.
#![tactic(auto)]

mod hash_index;

pub use hash_index::HashIndex;

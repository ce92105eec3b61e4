//! Nimbers as games, and their sums.
//!
//! The nimber of k is the game whose options are, on each side, the nimbers of the lesser numbers. The
//! functions of [`laws`] do nothing; their contracts are the laws.
#![tactic(auto)]

pub mod laws;

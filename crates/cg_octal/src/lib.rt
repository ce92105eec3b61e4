//! Octal games: heaps of tokens, and their values as nimbers.
//!
//! A code such as `0.77` says what may be left of a heap when one token is removed, when two are, and so on. Contracts
//! see a heap in such a game as the game of its moves, `heap`. [`read`] takes a code and a heap, or says why it refuses
//! them; [`values`] gives for each heap the nimber that it equals, by the least number that none of its options has.
#![tactic(auto)]

mod fault;
mod heaps;
pub mod laws;
mod list;
mod missing;
mod octal;
mod options;
mod reading;

pub use fault::OctalFault;
pub use heaps::values;
pub use list::Values;
pub use octal::Octal;
pub use reading::read;

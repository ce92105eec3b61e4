//! Boards in pieces.
#![tactic(auto)]

mod cutting;
mod field;
mod frame;
pub mod laws;
mod rules;

pub use cutting::{pieces, pieces_into, pieces_of_all_into};
pub use rules::NeighbourRules;

//! Domineering.
#![tactic(auto)]

mod dominoes;
mod fitting;
pub mod laws;
mod reading;

pub use dominoes::Domineering;
pub use fitting::spots;
pub use reading::read;

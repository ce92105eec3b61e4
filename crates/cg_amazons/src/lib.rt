//! Amazons.
#![tactic(auto)]

mod amazons;
pub mod laws;
mod queens;
mod ranking;
mod reaching;
mod reading;
mod shape;
mod way;

pub use amazons::Amazons;
pub use reaching::rays;
pub use reading::read;
pub use way::Way;

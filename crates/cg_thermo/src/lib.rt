//! Outcomes, stops and thermographs of the games of handles, over any store.
//!
//! The walls of a game are found from those of its options, each position once. Inside, values and temperatures are
//! whole numbers of units of 1/2^60.
#![tactic(auto)]

mod corners;
mod deciding;
mod ending;
mod fault;
mod highest_walls;
mod joining;
pub mod laws;
mod pairing_walls;
mod reading;
mod stopping;
mod thermo;
mod wall_pair;
mod winner;

pub use corners::{Corner, Corners};
pub use deciding::outcome;
pub use ending::Stops;
pub use fault::ThermoFault;
pub use reading::wall_at;
pub use stopping::stops;
pub use thermo::{Walls, thermograph};
pub use winner::Outcome;

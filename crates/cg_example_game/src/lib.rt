//! Shove, as an example of a game in a crate of its own: docs/ADDING_A_GAME.md walks through it.
#![tactic(auto)]

mod reading;
mod shove;
#[cfg(test)]
mod values;

pub use reading::read;
pub use shove::Shove;

//! Strip games, whose rules are written beside the row, and Toads and Frogs, which is one of them.
#![tactic(auto)]

mod faults;
mod hopping;
mod items;
pub mod laws;
mod moves;
mod placing;
mod reading;
mod rule;
mod strip;
mod toads;
mod tokens;
mod weighing;
mod weight;

pub use rule::Rule;
pub use strip::Strip;
pub use toads::{Toads, read_toads};
pub use weight::Weight;

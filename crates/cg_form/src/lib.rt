//! Games as plain trees: forms, their order, the structural order, and canonical forms, with the laws on which the rest
//! of the calculator stands.
//!
//! A [`Form`] is a number, or two lists of options. Contracts see it as the game of the same shape (`game_of`), and
//! lists of options as lists of games. The calls here work on whole trees and keep nothing between calls; specs/
//! defines what each answers. The functions of [`laws`] do nothing; their contracts are the laws.
#![tactic(auto)]

mod canon;
mod compare;
pub mod cuts;
mod fault;
mod form;
pub mod laws;
mod player;
mod slow;

pub use canon::canonical_slow;
pub use compare::compare_structure;
pub use fault::SlowFault;
pub use form::{Form, Options};
pub use slow::le_slow;

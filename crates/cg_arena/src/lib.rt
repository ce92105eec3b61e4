//! The arena: interned games in canonical form, each at a place, their order, and the canonical forms of games by two
//! lists of games of the arena.
#![tactic(auto)]

mod arena;
mod best;
mod bypass;
mod canonicalizing;
mod charge;
mod decided;
mod game;
mod keys;
mod order;
mod order_memo;
mod owning;
mod placing;
mod ranked;
mod reach;
mod reduce;
mod staying;
mod structure;
mod substitutes;
mod summarizing;
mod summary;
mod terms;
mod unreduced;
mod verdicts;

pub use arena::{Arena, Read};
pub use canonicalizing::{Canonicalized, NewForm, canonicalize};
pub use charge::Charge;
pub use game::Game;
pub use order::at_most;
pub use order_memo::OrderMemo;
pub use reduce::Form;
pub use summarizing::summary_of_lists;
pub use summary::Summary;
pub use terms::FirstTerm;

//! The order of games and their canonical forms, on handles of a store, with exact costs.
//!
//! A work interns the games that it meets: each is a [`Game`] of the work's arena, with its handle. The arena, the sums
//! and forms that were made, and what games are known as, are the work's cache, [`Cache`].
#![tactic(auto)]

mod again;
mod arena;
mod by_parts;
mod cache;
mod distinct;
mod entering;
mod equality;
mod fault;
mod forms;
mod found;
mod indexing;
mod interner;
mod item;
mod items_at;
mod kept_sums;
mod lossy_index;
mod made;
mod making;
mod making_at;
mod memo;
mod meter;
mod number_up_star;
mod numbers;
mod order;
mod pair_cells;
mod recognized;
mod rest;
mod value;
mod walk;
mod walking;
mod walks;
mod work;
mod written;

pub use again::{charge_again, keep_sum, sum_again};
pub use cache::Cache;
pub use cg_arena::{Arena, FirstTerm, Game, Read};
pub use equality::equal;
pub use fault::ValueFault;
pub use forms::{canonical, canonical_item};
pub use item::{item_of, number_item};
pub use number_up_star::zero;
pub use numbers::{le_number, number_le};
pub use order::le;
pub use rest::WorkRest;
pub use walk::{Position, Walk};
pub use work::Work;
pub use written::Written;

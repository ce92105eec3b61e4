//! Cells of a table and their keys, what keys mean, and the contract of a store of cells, for a store in plain memory
//! and for a table that threads share.
//!
//! A cell has a number, its [`Id`], a key and, if one was noted, a value, which is the id of another cell. A [`Key`] is
//! a word that isn't 0. A [`Facts`] says what keys mean: given the things that other cells stand for, a key spells a
//! thing. A cell stands for what its key spells, once the cells that the key names stand for things; so no cell is
//! defined by itself. A [`CellStore`] is generic over the facts: it finds the one cell of a key, and never looks into
//! the things.
#![tactic(auto)]

mod bits;
mod divisor;
mod facts;
mod fault;
mod id;
mod index;
mod key;
mod kinds;
pub mod law_steps;
pub mod laws;
mod plain;
mod store;

pub use divisor::Divisor;
pub use facts::Facts;
pub use fault::StoreFault;
pub use id::Id;
pub use key::{Key, KeyParts, ListParts};
pub use plain::PlainStore;
pub use store::CellStore;

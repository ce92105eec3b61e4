//! The table of cells that threads share, and the passes that step on it.
//!
//! A [`SharedCells`] is a row of words: a counter, and for each cell a key word and a value word. Threads step on it
//! through passes: a [`Pass`] is what one caller knows and owns, is used by one thread at a time, and belongs to one
//! table. Each step is one load, one exchange or one addition on one word. There is no lock, and no call waits. The
//! counter rises, and a key word or value word that isn't 0 never changes. A [`Desk`] is a table with one pass of it,
//! as a store of cells.
#![tactic(auto)]

mod cells;
mod desk;
mod finish;
mod pass;
mod passes;
mod plays;
mod search;
mod steps;
mod table;
mod view;

pub use desk::{Desk, DeskRest};
pub use pass::Pass;
pub use passes::Ticket;
pub use table::{SharedCells, StartFault};

//! Numbers, lists and games in the cells of a store.
//!
//! A [`Handle`] is the id of a number or a game, and stands for one form: a number if the game equals one, otherwise a
//! canonical game. Different handles of a store stand for different games. A [`ListId`] is the id of a list of handles.
//! The calls are generic over the store; each changes what is known, noted and spared only by what it claims.
//!
//! [`number`], [`list`] and [`game`] claim cells; [`kind`], [`options`], [`positions`] and [`compare_structure`] read
//! them, over [`read`], [`head`] and [`handles`]. Only calls that answer a list of handles allocate, and [`Found`],
//! which keeps handles. [`known_game`] does nothing; its contract says what holds of each game of a store.
#![tactic(auto)]

mod facts;
mod fault;
mod found;
mod handle;
pub mod laws;
mod long;
mod making;
mod reading;
mod structure;
mod walk;

pub use facts::{BoardForms, GameFacts, NoBoards, Thing};
pub use fault::PositionsFault;
pub use found::Found;
pub use handle::{Handle, Handles, Kind, ListId};
pub use making::{game, list, number, prefetch_game};
pub use reading::{Reading, Sides, Split, handles, head, kind, known_game, options, read};
pub use structure::compare_structure;
pub use walk::positions;

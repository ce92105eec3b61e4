//! Boards of games, and the rules of games on them.
#![tactic(auto)]

mod board;
mod boards;
mod edges;
mod fault;
mod found;
mod graph;
mod grid;
mod key;
pub mod laws;
mod linked;
mod linking;
mod numbering;
mod ordering;
mod pieces;
mod planes;
mod player;
mod pushing;
mod reaching;
mod rules;
mod walk;
pub mod words;
mod writing;

pub use board::Board;
pub use boards::{Boards, Cells};
pub use edges::pieces_in;
pub use fault::{BoardFault, ReachFault};
pub use graph::{Adjacency, PositionGraph};
pub use grid::read_grid;
pub use key::BoardKey;
pub use ordering::{in_order, risen};
pub use pieces::Pieces;
pub use planes::Planes;
pub use player::Player;
pub use pushing::{push, push_count};
pub use reaching::{open, open_pieces, reach, reach_pieces};
pub use rules::Rules;
pub use writing::text;

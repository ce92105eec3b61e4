//! The graph of positions: boards that were reached, with what comes next after each of them.

ghost use Rattle.std.specs.Prelude.{◌≡◌, ◌+◌, ◌≤◌, drop, length, take};

use crate::Boards;

/// The adjacency lists of a board: where what comes next after it stands in the lists of a [`PositionGraph`].
#[derive(Debug, Clone, Copy)]
pub struct Adjacency {
    /// How many boards Left's moves lead to.
    pub lefts: u32,
    /// Where in `counts` those of this board begin.
    pub first_count: u32,
    /// How many of them there are: one for each board that a move leads to.
    pub moves: u32,
    /// Where in `places` those of this board begin.
    pub first_place: u32,
    /// How many of them there are: one for each part of those boards.
    pub parts: u32,
}

/// The graph of positions: the boards that play can come to, and what comes next after each of them.
#[derive(Debug, Drop)]
pub struct PositionGraph {
    /// The boards, each once.
    pub boards: Boards,
    /// For each of the boards, in order, where what comes next after it stands.
    pub next: Vec<Adjacency>,
    /// How many parts each board has that a move leads to: those of Left's moves, then those of Right's, in the order
    /// of the moves. Where boards aren't cut, each is its own only part.
    pub counts: Vec<u32>,
    /// The places of these parts in the list of boards, board by board. Each is a place before that of the board that
    /// the moves are of.
    pub places: Vec<u32>,
    /// The places of the boards that play starts with: the start, or its pieces in order.
    pub starts: Vec<u32>,
}

impl PositionGraph {
    /// How many parts each board has that a move leads to, where this says where the counts stand.
    pub fn counts_of(&self, next: Adjacency) -> &[u32]
        requires { next.first_count + next.moves ≤ length self.now.counts.items }
        ensures { result.now ≡ take next.moves (drop next.first_count self.now.counts.items) }
    {
        let first = next.first_count as usize;
        &self.counts[first..first + next.moves as usize]
    }

    /// The places of these parts, where this says where the places stand.
    pub fn places_of(&self, next: Adjacency) -> &[u32]
        requires { next.first_place + next.parts ≤ length self.now.places.items }
        ensures { result.now ≡ take next.parts (drop next.first_place self.now.places.items) }
    {
        let first = next.first_place as usize;
        &self.places[first..first + next.parts as usize]
    }
}

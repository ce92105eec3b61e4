//! Adjacent vertices and their colours.
ghost use Rattle.std.specs.Prelude.{◌≡◌, ◌==◌, ◌&&◌, length, slice_index};
ghost use Rattle.std.specs.List.{list_any};
ghost use Rattle.cg_moves.specs.Rising.{counted};
ghost use Rattle.cg_graph.specs.ColouredGraphs.{edges_of, is_between};
ghost use Rattle.cg_graph.specs.Colouring.{are_adjacent};

use crate::edge::Pair;
use cg_moves::Board;

/// Whether the pair is one of the two vertices.
fn is_between(pair: &Pair, one: u8, other: u8) -> bool
    ensures { result ≡ is_between one other pair.now }
{
    (pair.one == one && pair.other == other) || (pair.one == other && pair.other == one)
}

/// Whether one of the pairs is one of the two vertices.
fn are_adjacent(pairs: &[Pair], one: u8, other: u8) -> bool
    ensures { result ≡ list_any (is_between one other) pairs.now }
{
    pairs.iter().any(|pair| is_between(pair, one, other))
}

/// Whether a neighbour of the vertex has the colour on the board.
pub fn has_neighbour(pairs: &[Pair], board: &Board, vertex: u8, colour: u8) -> bool
    ensures { result ≡ list_any (λ l. are_adjacent (edges_of pairs.now) vertex l && (slice_index board.now.cells l == colour))
        (counted 0 (length board.now.cells)) }
{
    for other in 0..board.size() {
        if board.cell(other) == colour && are_adjacent(pairs, vertex, other) {
            return true;
        }
    }
    false
}

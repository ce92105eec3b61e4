//! Drawings of Hackenbush.
ghost use Rattle.std.specs.Prelude.{◌≡◌, ◌≤◌, ◌⊎◌, All, Ok, Err, IfOk, IfErr, length, slice_get, true};
ghost use Rattle.cg_moves.specs.Grid.{IsGrid};
ghost use Rattle.cg_graph.specs.Drawings.{IsDrawing, IsDrawnAs, IsEdge, IsNotDrawn, colours_of, drawing_of};
ghost use Rattle.cg_graph.specs.Drawings.{drawing_read, drawing_rules, drawing_start, few_drawn};

use crate::edge::ColouredEdge;
use crate::fault::GraphFault;
use crate::items::EdgeItem;
use crate::labels::settled;
use crate::reading::edge_items;
use cg_moves::Board;
use cg_reading::ReadFault;
use std::alloc::{AllocError, Global};
use std::marker::Model;

const MOST_EDGES: usize = 64;

/// A drawing of Hackenbush: 1 to 64 edges with their colours. Contracts see the list of edges.
///
/// Left cuts a blue or a green edge, Right a red or a green one; then the edges that are no longer joined to the ground
/// go.
#[derive(Debug, Drop)]
pub struct Hackenbush {
    edges: Vec<ColouredEdge>,
}

impl Model for Hackenbush {
    ghost use Rattle.std.specs.Prelude.{List};
    ghost use Rattle.cg_graph.specs.Drawings.{IsDrawing};
    ghost use Rattle.cg_graph.specs.declared.edge.ColouredEdge.{ColouredEdge};

    ghost Value = { List ColouredEdge };

    ghost view = { λ s. s.edges.items };

    ghost invariant = { λ s. IsDrawing s.edges.items };
}

impl Hackenbush {
    /// The drawing of a text: one or more edges joined by commas, each a vertex, a colour and a vertex. A vertex is one
    /// byte `0` to `9` or `A` to `Z`, and `0` is the ground; a colour is `b`, `r` or `g`. Loops and repeated edges are
    /// allowed.
    ///
    /// `Edges` comes exactly where the text isn't in this grammar, with 1 plus the length of the longest prefix that
    /// some text of the grammar has, too; else `Large` exactly where there is a 65th edge, with the place of its first
    /// byte.
    pub fn read(alloc: Global, edges: &[u8]) -> Result<Hackenbush, GraphFault>
        ensures read { IfOk result (IsDrawnAs edges.now) }
        ensures refused { IfErr result (IsNotDrawn edges.now) }
        ensures same { IfOk result (λ drawing. drawing_read edges.now ≡ Ok drawing) }
        ensures cause { IfErr result (λ fault. (fault ≡ GraphFault.Memory) ⊎ (drawing_read edges.now ≡ Err fault)) }
    {
        match edge_items(alloc, edges) {
            Ok(items) => drawing_of(alloc, items),
            Err(ReadFault::Memory) => Err(GraphFault::Memory),
            Err(ReadFault::Stuck(left)) => {
                Err(GraphFault::Edges(edges.len() as u64 + 1 - left as u64))
            }
        }
    }

    /// The board at the start: one row with a cell for each edge, its colour, or `.` where the edge isn't joined to the
    /// ground.
    pub fn board(&self, alloc: Global) -> Result<Board, AllocError>
        ensures value { IfOk result (λ board. board ≡ drawing_start self.now) }
        ensures has { IfOk result (λ board. (drawing_rules self.now).has board ≡ true) }
        ensures grid { IfOk result IsGrid }
    {
        let colours = self.colours(alloc)?;
        let columns = colours.len() as u8;
        let whole = Board::make(alloc, 1, columns, b".brg", &colours)?;
        let board = settled(self.edges(), whole);
        // Read for the proof alone: each board is one.
        let _size = board.size();
        Ok(board)
    }

    /// The edges, in the order of the text.
    pub fn edges(&self) -> &[ColouredEdge]
        ensures value { result.now ≡ self.now }
        ensures sound { IsDrawing self.now }
    {
        &self.edges
    }

    /// The colours of the edges, in the order of the text.
    fn colours(&self, alloc: Global) -> Result<Vec<u8>, AllocError>
        ensures value { IfOk result (λ colours. colours.items ≡ colours_of self.now) }
        ensures sound { IsDrawing self.now }
    {
        self.edges.iter().map(|edge| edge.colour).collect(alloc)
    }
}

/// The drawing of these edges, if there aren't too many.
fn drawing_of(alloc: Global, items: Vec<EdgeItem>) -> Result<Hackenbush, GraphFault>
    requires some { 1 ≤ length items.items }
    requires edges { All IsEdge (drawing_of items.items) }
    ensures same { IfOk result (λ drawing. few_drawn items.items (slice_get items.items 64) ≡ Ok drawing) }
    ensures cause { IfErr result (λ fault. (fault ≡ GraphFault.Memory)
        ⊎ (few_drawn items.items (slice_get items.items 64) ≡ Err fault)) }
{
    if let Some(item) = items.get(MOST_EDGES) {
        return Err(GraphFault::Large(item.place));
    }
    let edges = items.into_iter().map(|item| item.edge).collect(alloc)?;
    Ok(Hackenbush { edges })
}

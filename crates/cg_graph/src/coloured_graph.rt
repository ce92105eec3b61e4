//! ColouredGraphs of Col and Snort.
ghost use Rattle.std.specs.Prelude.{◌≡◌, ◌≤◌, ◌⊎◌, All, None, Ok, Err, IfOk, IfErr, length, true};
ghost use Rattle.cg_moves.specs.Grid.{IsGrid};
ghost use Rattle.cg_graph.specs.ColouredGraphs.{ColouredGraph, IsColouredGraph, IsColouredGraphOf, IsNoColouredGraph};
ghost use Rattle.cg_graph.specs.ColouredGraphs.{coloured_graph_read, coloured_graph_rules, coloured_graph_start};
ghost use Rattle.cg_graph.specs.ColouredGraphs.{pair_of, pairs_fault, pairs_of, sound_coloured, vertices_fault};
ghost use Rattle.cg_graph.specs.Items.{IsLettered};

use crate::coloured_graph_faults::{named, pairs_fault, vertices_fault};
use crate::edge::Pair;
use crate::fault::GraphFault;
use crate::items::PairItem;
use crate::reading::pair_items;
use cg_moves::Board;
use cg_reading::ReadFault;
use std::alloc::{AllocError, Global};
use std::marker::Model;

/// A position of Col or Snort: which of the two games it is, the colours of 1 to 52 vertices, and which of them are
/// adjacent. Contracts see these three.
///
/// A player colours a free vertex in their own colour, Left `x` and Right `o`. In Snort no neighbour may have the other
/// player's colour, and in Col none may have the own.
#[derive(Debug, Drop)]
pub struct Colouring {
    snort: bool,
    vertices: Vec<u8>,
    edges: Vec<Pair>,
}

impl Model for Colouring {
    ghost use Rattle.cg_graph.specs.ColouredGraphs.{ColouredGraph, IsColouredGraph};

    ghost Value = { ColouredGraph };

    ghost view = { λ s. record { snort = s.snort; vertices = s.vertices.items; edges = s.edges.items } };

    ghost invariant = { λ s. IsColouredGraph (record { snort = s.snort; vertices = s.vertices.items; edges = s.edges.items }) };
}

impl Colouring {
    /// The position of two texts. The first has one byte for each vertex: `.` where it is free, `x` where it has Left's
    /// colour, and `o` where it has Right's. The vertices are named `a` to `z` and then `A` to `Z`, by place. The
    /// second text is empty or has pairs of names joined by commas; repeated pairs are allowed.
    ///
    /// The first of these that applies is the refusal. `Symbol` comes at the first byte of the vertices that is none of
    /// `.`, `x` and `o`; `Empty(1)` where there is no vertex; `Large(53)` where there are more than 52. `Edges` comes
    /// exactly where the second text isn't in its grammar, with 1 plus the length of the longest prefix that some text
    /// of the grammar has, too; else at the least place of a letter that names no vertex or repeats the first letter of
    /// its pair.
    pub fn read(
        alloc: Global,
        snort: bool,
        vertices: &[u8],
        edges: &[u8],
    ) -> Result<Colouring, GraphFault>
        ensures read { IfOk result (IsColouredGraphOf snort vertices.now edges.now) }
        ensures refused { IfErr result (IsNoColouredGraph vertices.now edges.now) }
        ensures same { IfOk result (λ coloured_graph. coloured_graph_read snort vertices.now edges.now ≡ Ok coloured_graph) }
        ensures cause { IfErr result (λ fault. (fault ≡ GraphFault.Memory)
            ⊎ (coloured_graph_read snort vertices.now edges.now ≡ Err fault)) }
    {
        if let Some(fault) = vertices_fault(vertices) {
            return Err(fault);
        }
        match pair_items(alloc, edges) {
            Ok(items) => coloured_graph_of(alloc, snort, vertices, &items),
            Err(ReadFault::Memory) => Err(GraphFault::Memory),
            Err(ReadFault::Stuck(left)) => {
                Err(GraphFault::Edges(edges.len() as u64 + 1 - left as u64))
            }
        }
    }

    /// The board at the start: one row with a cell for each vertex, its colour.
    pub fn board(&self, alloc: Global) -> Result<Board, AllocError>
        ensures value { IfOk result (λ board. board ≡ coloured_graph_start self.now) }
        ensures has { IfOk result (λ board. (coloured_graph_rules self.now).has board ≡ true) }
        ensures grid { IfOk result IsGrid }
    {
        let columns = self.vertices().len() as u8;
        let board = Board::make(alloc, 1, columns, b".xo", self.vertices())?;
        // Read for the proof alone: each board is one.
        let _size = board.size();
        Ok(board)
    }

    /// Whether it is Snort.
    pub fn is_snort(&self) -> bool
        ensures value { result ≡ self.now.snort }
        ensures sound { IsColouredGraph self.now }
    {
        self.snort
    }

    /// The colours of the vertices, in the order of the text.
    pub fn vertices(&self) -> &[u8]
        ensures value { result.now ≡ self.now.vertices }
        ensures sound { IsColouredGraph self.now }
    {
        &self.vertices
    }

    /// The adjacent vertices, in the order of the text.
    pub fn pairs(&self) -> &[Pair]
        ensures value { result.now ≡ self.now.edges }
        ensures sound { IsColouredGraph self.now }
    {
        &self.edges
    }
}

fn pair_of(item: &PairItem) -> Pair
    ensures { result ≡ pair_of item.now }
{
    Pair {
        one: named(item.one),
        other: named(item.other),
    }
}

/// The pairs of vertices that these pairs of letters name.
fn pairs_of(alloc: Global, items: &[PairItem]) -> Result<Vec<Pair>, AllocError>
    ensures { IfOk result (λ pairs. pairs.items ≡ pairs_of items.now) }
{
    let mut pairs = Vec::new(alloc);
    for item in items {
        pairs.push(pair_of(item))?;
    }
    Ok(pairs)
}

/// The position of these vertices and pairs, if no pair is amiss.
fn coloured_graph_of(
    alloc: Global,
    snort: bool,
    vertices: &[u8],
    items: &[PairItem],
) -> Result<Colouring, GraphFault>
    requires vertices { vertices_fault vertices.now ≡ None }
    requires items { All IsLettered items.now }
    ensures same { IfOk result (λ coloured_graph. sound_coloured
        (record { snort = snort; vertices = vertices.now; edges = pairs_of items.now })
        (pairs_fault (length vertices.now) items.now) ≡ Ok coloured_graph) }
    ensures cause { IfErr result (λ fault. (fault ≡ GraphFault.Memory) ⊎ (sound_coloured
        (record { snort = snort; vertices = vertices.now; edges = pairs_of items.now })
        (pairs_fault (length vertices.now) items.now) ≡ Err fault)) }
{
    if let Some(place) = pairs_fault(vertices.len(), items) {
        return Err(GraphFault::Edges(place));
    }
    let vertices = vertices.to_vec(alloc)?;
    let edges = pairs_of(alloc, items)?;
    Ok(Colouring {
        snort,
        vertices,
        edges,
    })
}

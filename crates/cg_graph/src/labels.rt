//! Which edges are joined to the ground: vertices get labels, one label to all that edges connect.
ghost use Rattle.std.specs.Prelude.{◌≡◌, ◌<◌, ◌==◌, ℕ, [], ◌||◌, All, Contains, length, slice_index};
ghost use Rattle.cg_moves.specs.Grid.{with_cells};
ghost use Rattle.cg_graph.specs.Drawings.{IsEdge, graph_of};
ghost use Rattle.cg_graph.specs.Labels.{AreLabels, relabelled};
ghost use Rattle.cg_graph.specs.Paths.{connected, gone, ground, present, settled};

use crate::edge::ColouredEdge;
use cg_moves::Board;

/// How many bytes there are up to `Z`.
const BYTES: usize = 91;

const GROUND: u8 = b'0';

/// What stands for an edge that is gone.
pub const GONE: u8 = b'.';

/// A label of its own for each vertex.
fn own_labels() -> [u8; BYTES]
    ensures { AreLabels result [] }
{
    let mut labels = [0; BYTES];
    for byte in 0..BYTES {
        labels[byte] = byte as u8;
    }
    labels
}

fn relabel(labels: &mut [u8], old: u8, new: u8)
    ensures long { length labels.new ≡ length labels.old }
    ensures value { (k : ℕ) → k < length labels.old
        → slice_index labels.new k ≡ relabelled old new (slice_index labels.old k) }
{
    for i in 0..labels.len() {
        if labels[i] == old {
            labels[i] = new;
        }
    }
}

/// The labels after all edges that are there: from the last to the first, the two ends get one label.
fn labels(edges: &[ColouredEdge], board: &Board) -> [u8; BYTES]
    requires edges { All IsEdge edges.now }
    requires size { length edges.now ≡ length board.now.cells }
    ensures { AreLabels result (present (graph_of edges.now) board.now.cells) }
{
    // Read for the proof alone: the board has at most 64 cells.
    let _size = board.size();
    let mut labels = own_labels();
    let mut left = edges.len();
    while left > 0 {
        left -= 1;
        let edge = edges[left];
        if board.cell(left as u8) != GONE {
            let old = labels[edge.other as usize];
            let new = labels[edge.one as usize];
            relabel(&mut labels, old, new);
        }
    }
    labels
}

/// Whether an end of the edge has the label of the ground.
fn is_joined(labels: &[u8; BYTES], edge: &ColouredEdge) -> bool
    requires long { length labels.now ≡ 91 }
    requires edge { IsEdge edge.now }
    ensures { result ≡ ((slice_index labels.now ground == slice_index labels.now edge.now.one)
        || (slice_index labels.now ground == slice_index labels.now edge.now.other)) }
{
    let label = labels[GROUND as usize];
    label == labels[edge.one as usize] || label == labels[edge.other as usize]
}

/// The board without the edges that aren't joined to the ground.
pub fn settled(edges: &[ColouredEdge], board: Board) -> Board
    requires edges { All IsEdge edges.now }
    requires size { length edges.now ≡ length board.cells }
    requires gone { Contains board.symbols gone }
    ensures { result ≡ with_cells board (settled (graph_of edges.now) board.cells) }
{
    // Read for the proof alone: the board has at most 64 cells.
    let _size = board.size();
    let labels = labels(edges, &board);
    let mut kept = board;
    for (i, edge) in edges.iter().enumerate() {
        if !is_joined(&labels, edge) {
            kept.set(i as u8, GONE);
        }
    }
    kept
}

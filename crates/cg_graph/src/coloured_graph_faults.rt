//! Why vertices and pairs of Col and Snort are refused.
ghost use Rattle.std.specs.Prelude.{◌≡◌, ◌<◌, ◌≤◌, ◌+◌, ◌^◌, codes, length, position, true, All};
ghost use Rattle.cg_moves.specs.Texts.{is_foreign};
ghost use Rattle.cg_graph.specs.ColouredGraphs.{named, pair_fault, pairs_fault, vertices_fault};
ghost use Rattle.cg_graph.specs.Items.{IsLettered};

use crate::fault::GraphFault;
use crate::items::PairItem;

const MOST_VERTICES: usize = 52;

/// Whether the byte is none of `.`, `x` and `o`.
fn is_foreign(byte: u8) -> bool
    ensures { result ≡ is_foreign true (codes ".xo") byte }
{
    !b".xo".contains(&byte)
}

/// The index of the first such byte.
fn first_foreign(vertices: &[u8]) -> Option<usize>
    ensures { result ≡ position (is_foreign true (codes ".xo")) vertices.now }
{
    vertices.iter().position(|byte| is_foreign(*byte))
}

/// Why the text is no row of vertices.
pub fn vertices_fault(vertices: &[u8]) -> Option<GraphFault>
    ensures { result ≡ vertices_fault vertices.now }
{
    if let Some(index) = first_foreign(vertices) {
        return Some(GraphFault::Symbol(index as u64 + 1));
    }
    match vertices.len() {
        0 => Some(GraphFault::Empty(1)),
        1..=MOST_VERTICES => None,
        _ => Some(GraphFault::Large(53)),
    }
}

/// The place of the vertex that the letter names, counted from 0.
pub fn named(letter: u8) -> u8
    ensures { result ≡ named letter }
{
    if b'a' <= letter {
        letter - b'a'
    } else {
        26 + letter.saturating_sub(b'A')
    }
}

/// The least place at which the pair is amiss among so many vertices.
fn pair_fault(vertices: usize, item: &PairItem) -> Option<u64>
    requires { IsLettered item.now }
    ensures { result ≡ pair_fault vertices item.now }
{
    if vertices <= named(item.one) as usize {
        return Some(item.place);
    }
    if vertices <= named(item.other) as usize || item.other == item.one {
        return Some(item.place + 1);
    }
    None
}

/// The least place at which one of the pairs is amiss among so many vertices.
pub fn pairs_fault(vertices: usize, items: &[PairItem]) -> Option<u64>
    requires { All IsLettered items.now }
    ensures { result ≡ pairs_fault vertices items.now }
{
    for item in items {
        if let Some(place) = pair_fault(vertices, item) {
            return Some(place);
        }
    }
    None
}

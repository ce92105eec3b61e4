//! Edges and pairs of a text. `text_end` is the place behind the text's end.
ghost use Rattle.std.specs.Prelude.{◌≡◌, ◌≤◌, ◌<◌, ℕ, length, IfOk};
ghost use Rattle.cg_reading.specs.Bytes.{has};
ghost use Rattle.cg_reading.specs.Gives.{Gives};
ghost use Rattle.cg_reading.specs.Readers.{behind_these, whole_at};
ghost use Rattle.cg_graph.specs.Grammar.{colour, comma, letter, vertex};
ghost use Rattle.cg_graph.specs.Reading.{colour_at, edge_at, edges_at, letter_at, next_edge_at};
ghost use Rattle.cg_graph.specs.Reading.{next_pair_at, pair_at, pairs_at, some_pairs_at, vertex_at};

use crate::edge::ColouredEdge;
use crate::items::{EdgeItem, PairItem};
use cg_reading::{ReadFault, after_byte, is_byte};
use std::alloc::Global;

fn is_vertex(byte: u8) -> bool
    ensures { result ≡ has vertex byte }
{
    (b'0' <= byte && byte <= b'9') || (b'A' <= byte && byte <= b'Z')
}

fn is_colour(byte: u8) -> bool
    ensures { result ≡ has colour byte }
{
    byte == b'b' || byte == b'g' || byte == b'r'
}

/// Whether the byte may name a vertex of Col or Snort.
fn is_letter(byte: u8) -> bool
    ensures { result ≡ has letter byte }
{
    (b'A' <= byte && byte <= b'Z') || (b'a' <= byte && byte <= b'z')
}

/// The first byte, which names a vertex.
#[tactic(auto, unfolding(crate::specs::Reading::vertex_at))]
fn first_vertex(bytes: &[u8]) -> Result<(u8, &[u8]), ReadFault>
    ensures read { (text_end : ℕ) → Gives (λ x. (x.0, x.1.now)) result (vertex_at text_end bytes.now) }
    ensures shorter { IfOk result (λ x. length x.1.now < length bytes.now) }
{
    let Some((byte, rest)) = bytes.split_first() else {
        return Err(ReadFault::Stuck(0));
    };
    if !is_vertex(*byte) {
        return Err(ReadFault::Stuck(bytes.len()));
    }
    Ok((*byte, rest))
}

/// The first byte, which is a colour.
#[tactic(auto, unfolding(crate::specs::Reading::colour_at))]
fn first_colour(bytes: &[u8]) -> Result<(u8, &[u8]), ReadFault>
    ensures read { (text_end : ℕ) → Gives (λ x. (x.0, x.1.now)) result (colour_at text_end bytes.now) }
    ensures shorter { IfOk result (λ x. length x.1.now < length bytes.now) }
{
    let Some((byte, rest)) = bytes.split_first() else {
        return Err(ReadFault::Stuck(0));
    };
    if !is_colour(*byte) {
        return Err(ReadFault::Stuck(bytes.len()));
    }
    Ok((*byte, rest))
}

/// The first byte, which may name a vertex of Col or Snort.
#[tactic(auto, unfolding(crate::specs::Reading::letter_at))]
fn first_letter(bytes: &[u8]) -> Result<(u8, &[u8]), ReadFault>
    ensures read { (text_end : ℕ) → Gives (λ x. (x.0, x.1.now)) result (letter_at text_end bytes.now) }
    ensures shorter { IfOk result (λ x. length x.1.now < length bytes.now) }
{
    let Some((byte, rest)) = bytes.split_first() else {
        return Err(ReadFault::Stuck(0));
    };
    if !is_letter(*byte) {
        return Err(ReadFault::Stuck(bytes.len()));
    }
    Ok((*byte, rest))
}

#[tactic(auto, unfolding(crate::specs::Reading::edge_at))]
fn edge(text_end: u64, bytes: &[u8]) -> Result<(EdgeItem, &[u8]), ReadFault>
    requires { length bytes.now ≤ text_end }
    ensures read { Gives (λ x. (x.0, x.1.now)) result (edge_at text_end bytes.now) }
    ensures shorter { IfOk result (λ x. length x.1.now < length bytes.now) }
{
    let place = text_end - bytes.len() as u64;
    let (one, rest) = first_vertex(bytes)?;
    let (colour, rest) = first_colour(rest)?;
    let (other, rest) = first_vertex(rest)?;
    let edge = ColouredEdge { one, colour, other };
    Ok((EdgeItem { place, edge }, rest))
}

#[tactic(auto, unfolding(crate::specs::Reading::next_edge_at))]
fn next_edge(text_end: u64, bytes: &[u8]) -> Result<(EdgeItem, &[u8]), ReadFault>
    requires { length bytes.now ≤ text_end }
    ensures read { Gives (λ x. (x.0, x.1.now)) result (next_edge_at text_end bytes.now) }
    ensures shorter { IfOk result (λ x. length x.1.now < length bytes.now) }
{
    let rest = after_byte(b',', bytes)?;
    edge(text_end, rest)
}

fn more_edges(
    text_end: u64,
    front: Vec<EdgeItem>,
    bytes: &[u8],
) -> Result<(Vec<EdgeItem>, &[u8]), ReadFault>
    requires { length bytes.now ≤ text_end }
    ensures { Gives (λ x. (x.0.items, x.1.now)) result
        (behind_these comma next_edge_at front.items text_end bytes.now) }
{
    let mut edges = front;
    let mut rest = bytes;
    while let Some((first, _)) = rest.split_first() {
        if !is_byte(b',', *first) {
            break;
        }
        let (next, after) = next_edge(text_end, rest)?;
        edges.push(next)?;
        rest = after;
    }
    Ok((edges, rest))
}

/// The edges of the whole text.
#[tactic(auto, unfolding(crate::specs::Reading::edges_at))]
pub fn edge_items(alloc: Global, text: &[u8]) -> Result<Vec<EdgeItem>, ReadFault>
    ensures { Gives (λ x. x.items) result (whole_at edges_at text.now) }
{
    let text_end = text.len() as u64 + 1;
    let (first, rest) = edge(text_end, text)?;
    let mut front = Vec::new(alloc);
    front.push(first)?;
    let (edges, rest) = more_edges(text_end, front, rest)?;
    if rest.is_empty() {
        Ok(edges)
    } else {
        Err(ReadFault::Stuck(rest.len()))
    }
}

#[tactic(auto, unfolding(crate::specs::Reading::pair_at))]
fn pair(text_end: u64, bytes: &[u8]) -> Result<(PairItem, &[u8]), ReadFault>
    requires { length bytes.now ≤ text_end }
    ensures read { Gives (λ x. (x.0, x.1.now)) result (pair_at text_end bytes.now) }
    ensures shorter { IfOk result (λ x. length x.1.now < length bytes.now) }
{
    let place = text_end - bytes.len() as u64;
    let (one, rest) = first_letter(bytes)?;
    let (other, rest) = first_letter(rest)?;
    Ok((PairItem { place, one, other }, rest))
}

#[tactic(auto, unfolding(crate::specs::Reading::next_pair_at))]
fn next_pair(text_end: u64, bytes: &[u8]) -> Result<(PairItem, &[u8]), ReadFault>
    requires { length bytes.now ≤ text_end }
    ensures read { Gives (λ x. (x.0, x.1.now)) result (next_pair_at text_end bytes.now) }
    ensures shorter { IfOk result (λ x. length x.1.now < length bytes.now) }
{
    let rest = after_byte(b',', bytes)?;
    pair(text_end, rest)
}

fn more_pairs(
    text_end: u64,
    front: Vec<PairItem>,
    bytes: &[u8],
) -> Result<(Vec<PairItem>, &[u8]), ReadFault>
    requires { length bytes.now ≤ text_end }
    ensures { Gives (λ x. (x.0.items, x.1.now)) result
        (behind_these comma next_pair_at front.items text_end bytes.now) }
{
    let mut pairs = front;
    let mut rest = bytes;
    while let Some((first, _)) = rest.split_first() {
        if !is_byte(b',', *first) {
            break;
        }
        let (next, after) = next_pair(text_end, rest)?;
        pairs.push(next)?;
        rest = after;
    }
    Ok((pairs, rest))
}

#[tactic(auto, unfolding(crate::specs::Reading::some_pairs_at))]
fn some_pairs(
    alloc: Global,
    text_end: u64,
    bytes: &[u8],
) -> Result<(Vec<PairItem>, &[u8]), ReadFault>
    requires { length bytes.now ≤ text_end }
    ensures { Gives (λ x. (x.0.items, x.1.now)) result (some_pairs_at text_end bytes.now) }
{
    let (first, rest) = pair(text_end, bytes)?;
    let mut front = Vec::new(alloc);
    front.push(first)?;
    more_pairs(text_end, front, rest)
}

/// All pairs in front, if a letter comes first.
#[tactic(auto, unfolding(crate::specs::Reading::pairs_at))]
fn any_pairs(
    alloc: Global,
    text_end: u64,
    bytes: &[u8],
) -> Result<(Vec<PairItem>, &[u8]), ReadFault>
    requires { length bytes.now ≤ text_end }
    ensures { Gives (λ x. (x.0.items, x.1.now)) result (pairs_at text_end bytes.now) }
{
    match bytes.split_first() {
        Some((first, _)) if is_letter(*first) => some_pairs(alloc, text_end, bytes),
        _ => Ok((Vec::new(alloc), bytes)),
    }
}

/// The pairs of the whole text.
pub fn pair_items(alloc: Global, text: &[u8]) -> Result<Vec<PairItem>, ReadFault>
    ensures { Gives (λ x. x.items) result (whole_at pairs_at text.now) }
{
    let text_end = text.len() as u64 + 1;
    let (pairs, rest) = any_pairs(alloc, text_end, text)?;
    if rest.is_empty() {
        Ok(pairs)
    } else {
        Err(ReadFault::Stuck(rest.len()))
    }
}

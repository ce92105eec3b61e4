//! The items of texts of edges, with the places where they stand. Places count bytes of the text from 1.
use crate::edge::ColouredEdge;

/// An edge of Hackenbush, with the place of its first byte.
#[derive(Clone, Copy, Debug)]
pub struct EdgeItem {
    pub place: u64,
    pub edge: ColouredEdge,
}

/// A pair of letters, with the place of the first.
#[derive(Clone, Copy, Debug)]
pub struct PairItem {
    pub place: u64,
    pub one: u8,
    pub other: u8,
}

//! Edges of graphs.

/// An edge of Hackenbush: its two ends, each a byte `0` to `9` or `A` to `Z`, and its colour `b`, `r` or `g`.
#[derive(Clone, Copy, Debug, PartialEq, Eq)]
pub struct ColouredEdge {
    /// The end that is written first.
    pub one: u8,
    /// The colour.
    pub colour: u8,
    /// The other end.
    pub other: u8,
}

/// Two adjacent vertices of Col or Snort, each by its place in the row of vertices, counted from 0.
#[derive(Clone, Copy, Debug, PartialEq, Eq)]
pub struct Pair {
    /// The vertex that is written first.
    pub one: u8,
    /// The other vertex.
    pub other: u8,
}

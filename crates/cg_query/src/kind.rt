//! The games that a board may be of.

/// A game whose positions are written as boards.
#[derive(Clone, Copy, Debug, PartialEq, Eq)]
pub enum GameKind {
    /// Left places upright dominoes, and Right level ones.
    Domineering,
    /// A stone takes the place of a neighbour of the other colour.
    Clobber,
    /// An amazon moves like a queen, and shoots an arrow like one.
    Amazons,
    /// Toads and frogs step and jump along a row.
    Toads,
    /// A row of cells that is rewritten by rules of its own.
    Strip,
    /// Edges are cut, and those that hang on the ground no more fall away.
    Hackenbush,
    /// A vertex is given a player's colour where no neighbour has it.
    Col,
    /// A vertex is given a player's colour where no neighbour has the other's.
    Snort,
}

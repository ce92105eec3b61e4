//! What a symbol weighs.

/// What a symbol weighs: `base`, and `left` for each cell to its left and `right` for each to its right.
#[derive(Clone, Copy, Debug, PartialEq, Eq)]
pub struct Weight {
    /// The symbol.
    pub symbol: u8,
    /// Its weight in a row of one cell.
    pub base: u16,
    /// How much more it weighs for each cell to its left.
    pub left: u16,
    /// How much more it weighs for each cell to its right.
    pub right: u16,
}

//! Names without braces.
use cg_dyadic::Dyadic;

/// A name without braces, of a game that is no number.
#[derive(Clone, Copy, Debug, PartialEq, Eq)]
pub enum NamedForm {
    /// A number and a nimber, as `1/2*3`.
    Star(Dyadic, u64),
    /// A number and so many ups, or downs, and `*` too where it is starred: `3^^*`.
    Arrows {
        /// Whether it is downs.
        down: bool,
        /// Whether `*` stands behind them.
        starred: bool,
        /// The number.
        base: Dyadic,
        /// How many there are.
        count: u64,
    },
    /// A switch, as `+-1`.
    Switch(Dyadic),
    /// Tiny of a number, or miny.
    Tiny(bool, Dyadic),
}
